// A link is made, and closed.

ghost use Rattle.std.specs.Prelude.{◌≡◌, ◌≤◌, ◌<◌, ◌++◌, [], length, true, false, IfOk};
ghost use Rattle.crossbeam_channel.specs.Claims.{view, IsSeatAt};
ghost use Rattle.crossbeam_channel.specs.Ends.{sends_on};
ghost use Rattle.strc_run_links.specs.Ends.{sent_by, got_by, room_of, IsLink};
ghost use Rattle.strc_run_links.specs.Links.{log};

use crate::rule::{Drained, InOrder, Roles, Room, Whole};
use crate::rx::Rx;
use crate::tx::Tx;
use crate::view::Log;
use crossbeam_channel::{Pass, RuledSender, bounded_with};
use std::alloc::Global;
use std::marker::Brand;
use std::sync::Wait;
use strc_lex_names::memory::NoMemory;
use strc_stage_core::Parcel;

/// The two ends of a new link with room for so many parcels.
pub fn link(alloc: Global, room: u32) -> Result<(Tx, Rx), NoMemory>
    requires { 0 < room }
    ensures ends { IfOk result (λ ends. IsLink ends.0 ends.1) }
    ensures room { IfOk result (λ ends. room_of ends.0 ≡ room) }
    ensures empty { IfOk result (λ ends. (sent_by ends.0 ≡ []) × (got_by ends.1 ≡ [])) }
{
    let (sender, receiver, mut giving) = bounded_with::<Parcel, Log, InOrder, Global>(
        alloc,
        room as usize,
    )?;
    let taking = part::<Brand>(&sender, &mut giving);
    let tx = Tx {
        end: sender,
        pass: giving,
    };
    let rx = Rx {
        end: receiver,
        pass: taking,
    };
    Ok((tx, rx))
}

/// Cuts the first pass into the giver's, which stays, and the taker's.
fn part<R: Room>(
    sender: &RuledSender<Parcel, Log, InOrder>,
    pass: &mut Pass<Parcel, Log>,
) -> Pass<Parcel, Log>
    requires seat { IsSeatAt (sends_on sender.now) pass.old }
    requires first { view pass.old ≡ log true true 0 [] [] }
    ensures giver { IsSeatAt (sends_on sender.now) pass.new
        × (view pass.new ≡ log true false R.room [] []) }
    ensures taker { IsSeatAt (sends_on sender.now) result
        × (view result ≡ log false true 0 [] []) }
{
    sender.another::<Roles<R>>(pass)
}

/// Closes a link: what was sent and not received, in order.
pub fn close<R: Wait>(rt: &R, alloc: Global, tx: Tx, rx: Rx) -> Result<Vec<Parcel>, NoMemory>
    requires { IsLink tx rx }
    ensures left { IfOk result (λ left. sent_by tx ≡ got_by rx ++ left.items) }
    ensures room { IfOk result (λ left. length left.items ≤ room_of tx) }
{
    let Tx {
        end: sender,
        mut pass,
    } = tx;
    let Rx {
        end: receiver,
        pass: taking,
    } = rx;
    sender.absorb::<Whole>(&mut pass, taking);
    sender.learn_as::<Drained>(&mut pass);
    let mut left = Vec::new(alloc);
    for _ in rt.forever() {
        left.reserve(1)?;
        match receiver.try_recv_as::<Drained, R>(rt, &mut pass) {
            Ok(parcel) => left.push_reserved(parcel),
            Err(_) => return Ok(left),
        }
    }
    unreachable!()
}
