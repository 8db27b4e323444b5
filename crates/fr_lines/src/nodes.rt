//! The line of a node's numbers.
ghost use Rattle.std.specs.Prelude.{◌≡◌, Some, IfSome};
ghost use Rattle.fr_slots.specs.Plans.{Plan, IsNodePlan};
ghost use Rattle.fr_text.specs.Spaces.{words_of, line_of};
ghost use Rattle.fr_lines.specs.Reading.{limits_in, node_in};
ghost use Rattle.fr_lines.specs.Spelled.{bare_plan};
ghost use Rattle.fr_lines.specs.Spelling.{node_words};

use fr_slots::plan::NodePlan;
use fr_text::numbers::number_of;
use fr_text::words::Words;

/// Returns the plan of the five numbers that the words spell.
#[tactic(auto, unfolding(crate::specs::Reading::limits_in))]
fn limits_of(words: &mut Words<'_>) -> Option<NodePlan>
    ensures { result ≡ limits_in words.old }
{
    let (tasks, latest_a, latest_b, host_entries, slot_entries) = words.five()?;
    let tasks = number_of(tasks, 9)?;
    let latest_a = number_of(latest_a, 8001)?;
    let latest_b = number_of(latest_b, 8001)?;
    let host_entries = number_of(host_entries, 16385)?;
    let slot_entries = number_of(slot_entries, 65537)?;
    let latest = [latest_a as u16, latest_b as u16];
    match NodePlan::new(
        tasks as u8,
        latest,
        host_entries as u16,
        slot_entries as u32,
    ) {
        Ok(plan) => Some(plan),
        Err(_) => None,
    }
}

/// Returns the plan that the line spells.
#[tactic(auto, unfolding(crate::specs::Reading::node_in))]
fn node_in(line: &[u8]) -> Option<NodePlan>
    ensures { result ≡ node_in (words_of line.now) }
{
    let mut words = Words::new(line);
    match words.next_word()? {
        b"node" => limits_of(&mut words),
        _ => None,
    }
}

/// Returns the plan that a line `node` begins, without ownership lines, buffers and a receive FIFO.
///
/// `None` for a line of another form, and for a number out of its range. There are 0 to 8 tasks. The latest minislot is
/// 0 to 8000 for channel A and for B. There is room for 1 to 16384 host entries and for 2 to 65536 slot entries.
pub fn node_of(line: &[u8]) -> Option<NodePlan>
    ensures found { IfSome result (λ p. line.now ≡ line_of (node_words p)) }
    ensures fits { IfSome result (λ p. IsNodePlan p × (p ≡ bare_plan p)) }
    ensures only { (p : Plan) → IsNodePlan p → line.now ≡ line_of (node_words p) → result ≡ Some (bare_plan p) }
    ensures exact { result ≡ node_in (words_of line.now) }
{
    node_in(line)
}
