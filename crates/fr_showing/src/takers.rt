//! The receivers of a transmission.
ghost use Rattle.std.specs.Prelude.{◌≡◌, ◌≤◌, false, length, IfOk, is_some};
ghost use Rattle.std.specs.Option.{option_and_then};
ghost use Rattle.fr_bus.specs.Record.{seen_by};
ghost use Rattle.fr_journal.specs.Held.{data_frame_seen, with_data};
ghost use Rattle.fr_capture.specs.Takers.{after_commas, takers_word};
ghost use Rattle.fr_capture.specs.TakerSteps.{is_any};
ghost use Rattle.fr_showing.specs.Takers.{takers_at, takers_by_plans, takers_from};
ghost use Rattle.fr_slots.specs.declared.channel.Channel.TheVariants as on;
ghost use Rattle.fr_text.specs.Writing.{Writes};

use crate::ends::window_of;
use fr_bus::outcome::Sealed;
use fr_capture::takers::{Observed, Takers, write_more};
use fr_capture::taking::Came;
use fr_frame::lent::LentFrame;
use fr_interface::interface::Interface;
use fr_slots::channel::Channel;
use fr_slots::numbers::NodeId;
use fr_slots::params::Params;
use fr_slots::plan::NodePlan;
use fr_slots::window::Window;
use fr_status::seen::Seen;
use fr_status::status::lent_status_of;
use std::io;
use std::io::Write;

/// A transmission: a channel of a recorded window, by the parameters of the cluster.
#[derive(Clone, Copy)]
pub(crate) struct Transmission<'a> {
    /// The parameters.
    pub(crate) params: &'a Params,
    /// The window.
    pub(crate) sealed: &'a Sealed,
    /// The channel.
    pub(crate) channel: Channel,
}

/// Returns whether this is a data frame.
fn is_data(frame: Option<LentFrame<'_>>) -> bool
    ensures { result ≡ is_some (option_and_then with_data frame.entry) }
{
    match frame {
        Some(frame) => frame.has_data,
        None => false,
    }
}

/// Returns whether a valid data frame was observed on the channel.
fn has_frame(params: &Params, window: &Window, channel: Channel, seen: &Seen) -> bool
    ensures { result ≡ is_some (data_frame_seen params.now window.now channel seen.now) }
{
    match window.slot(channel) {
        Some(slot) => is_data(lent_status_of(params, window.cycle, slot, channel, seen).1),
        None => false,
    }
}

/// Returns whether a valid data frame came to the node on the channel.
fn came_on(params: &Params, sealed: &Sealed, channel: Channel, node: NodeId) -> bool
    ensures { result ≡ is_some
        (data_frame_seen params.now sealed.now.window channel (seen_by params.now sealed.now channel node)) }
{
    let seen = sealed.seen(params, channel, node);
    has_frame(params, window_of(sealed), channel, &seen)
}

/// Returns the data frames that came to the node in the window.
fn came_to(params: &Params, sealed: &Sealed, node: NodeId) -> Came
    ensures a { result.a ≡ is_some
        (data_frame_seen params.now sealed.now.window on.A (seen_by params.now sealed.now on.A node)) }
    ensures b { result.b ≡ is_some
        (data_frame_seen params.now sealed.now.window on.B (seen_by params.now sealed.now on.B node)) }
{
    Came {
        a: came_on(params, sealed, Channel::A, node),
        b: came_on(params, sealed, Channel::B, node),
    }
}

/// Returns the receivers of the transmission at the node.
fn takers_at<'a>(plan: &'a NodePlan, sent: &Transmission<'a>, node: NodeId) -> Takers<'a>
    ensures { result ≡ takers_at sent.now.params.now plan.now sent.now.sealed.now sent.now.channel node }
{
    let observed = Observed {
        window: window_of(sent.sealed),
        came: came_to(sent.params, sent.sealed, node),
        channel: sent.channel,
        node: Some(node),
    };
    Takers { plan, observed }
}

/// Writes the receivers of the transmission, and returns whether there were any.
///
/// It was on the channel of the window.
fn write_nodes<'a, W: Write>(
    writer: &mut W,
    interfaces: &'a [Interface],
    sent: &Transmission<'a>,
) -> io::Result<bool>
    requires { length interfaces.now ≤ 16 }
    ensures text { Writes W.contents writer.old writer.new result
        (after_commas false (takers_from sent.now.params.now sent.now.sealed.now sent.now.channel 0 interfaces.now)) }
    ensures any { IfOk result (λ now. now
        ≡ is_any (takers_from sent.now.params.now sent.now.sealed.now sent.now.channel 0 interfaces.now)) }
{
    let mut any = false;
    for (number, interface) in interfaces.iter().enumerate() {
        let node = NodeId::from_number(number as u8);
        let takers = takers_at(interface.plan(), sent, node);
        any = write_more(writer, any, &takers)?;
    }
    Ok(any)
}

/// Writes the receivers of the transmission, with commas between them, or a dash.
///
/// They are the buffers and receive FIFOs that stored it on the channel of the window.
pub(crate) fn write_takers<'a, W: Write>(
    writer: &mut W,
    interfaces: &'a [Interface],
    sent: &Transmission<'a>,
) -> io::Result<()>
    requires { length interfaces.now ≤ 16 }
    ensures { Writes W.contents writer.old writer.new result
        (takers_word (takers_from sent.now.params.now sent.now.sealed.now sent.now.channel 0 interfaces.now)) }
{
    if write_nodes(writer, interfaces, sent)? {
        Ok(())
    } else {
        write!(writer, "-")
    }
}

/// Writes the receivers of the transmission at the nodes of these plans, and returns whether there were any.
fn write_planned<'a, W: Write>(
    writer: &mut W,
    plans: &'a [NodePlan],
    sent: &Transmission<'a>,
) -> io::Result<bool>
    requires { length plans.now ≤ 16 }
    ensures text { Writes W.contents writer.old writer.new result
        (after_commas false (takers_by_plans sent.now.params.now sent.now.sealed.now sent.now.channel 0 plans.now)) }
    ensures any { IfOk result (λ now. now
        ≡ is_any (takers_by_plans sent.now.params.now sent.now.sealed.now sent.now.channel 0 plans.now)) }
{
    let mut any = false;
    for (number, plan) in plans.iter().enumerate() {
        let node = NodeId::from_number(number as u8);
        let takers = takers_at(plan, sent, node);
        any = write_more(writer, any, &takers)?;
    }
    Ok(any)
}

/// Writes the receivers of the transmission at the nodes of these plans, as `write_takers` does.
pub(crate) fn write_takers_by_plans<'a, W: Write>(
    writer: &mut W,
    plans: &'a [NodePlan],
    sent: &Transmission<'a>,
) -> io::Result<()>
    requires { length plans.now ≤ 16 }
    ensures { Writes W.contents writer.old writer.new result
        (takers_word (takers_by_plans sent.now.params.now sent.now.sealed.now sent.now.channel 0 plans.now)) }
{
    if write_planned(writer, plans, sent)? {
        Ok(())
    } else {
        write!(writer, "-")
    }
}
