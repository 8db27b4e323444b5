//! Lists of nodes.
ghost use Rattle.std.specs.Prelude.{◌≡◌, option_map, slice_get};
ghost use Rattle.fr_cli.specs.NodeLists.{nodes_in, pieces_of, with_piece};

use fr_text::numbers::number_of;

/// The number of nodes that a list can name.
const NODES: usize = 16;

/// Returns the piece at this place of a list.
fn piece_at(word: &str, place: usize) -> Option<&str>
    ensures { option_map (λ piece. piece.now) result ≡ slice_get (pieces_of word.now) place }
{
    word.split(',').nth(place)
}

/// Returns the nodes and the one that the piece spells, which must not be one of them.
fn with_piece(nodes: &[bool; NODES], piece: &str) -> Option<[bool; NODES]>
    ensures { result ≡ with_piece nodes.now piece.now }
{
    let node = number_of(piece.as_bytes(), 16)? as usize;
    if nodes[node] {
        return None;
    }
    let mut more = *nodes;
    more[node] = true;
    Some(more)
}

/// Returns the nodes that a list names: numbers from 0 to 15 without a leading zero, with commas between them, each
/// once. The place of a node says whether it is named.
pub(crate) fn nodes_of(word: &str) -> Option<[bool; NODES]>
    ensures { result ≡ nodes_in word.now }
{
    if piece_at(word, NODES).is_some() {
        return None;
    }
    let mut nodes = [false; NODES];
    for place in 0..NODES {
        match piece_at(word, place) {
            Some(piece) => nodes = with_piece(&nodes, piece)?,
            None => return Some(nodes),
        }
    }
    Some(nodes)
}
