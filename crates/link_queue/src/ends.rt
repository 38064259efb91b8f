//! The two ends of a link, while messages go through it and when they are over.
ghost use Rattle.std.specs.Prelude.{◌≡◌, ◌<◌, [], IfOk, IsErr, true, false, length};
ghost use mathlib.Core.List.{IsPrefix};
ghost use Rattle.link_queue.specs.End.{end_of, rx_state, Receives, Sends};

use crate::item::{Item, View};
use crate::rule::{Ends, InOrder, Puts, Takes, Total};
use crossbeam_channel::{Pass, RuledReceiver, RuledSender, bounded_with};
use site_exchange::Message;
use std::alloc::{AllocError, Global};
use std::marker::Model;
use std::sync::Wait;

// As many messages may be put into one link.
const MOST_PUT: u64 = 1 << 63;

/// The end that sends. Contracts see which link it is of, and the messages that were put, in order.
#[derive(Drop)]
pub struct Tx {
    sender: RuledSender<Item, View, InOrder>,
    pass: Pass<Item, View>,
    count: u64,
}

impl Model for Tx {
    ghost use Rattle.std.specs.Prelude.{◌≡◌, true, false, [], length, ◌≤◌, ◌^◌};
    ghost use Rattle.crossbeam_channel.specs.Claims.{view as seen, IsSeatAt};
    ghost use Rattle.crossbeam_channel.specs.Ends.{sends_on};
    ghost use Rattle.link_queue.specs.Link.{know};
    ghost use Rattle.link_queue.specs.End.{End};
    ghost use Rattle.std.specs.Coded.{codes};
    ghost use Rattle.link_queue.specs.contracts.item.Item as item;
    ghost use Rattle.site_exchange.specs.contracts.message.Message as message;

    ghost Value = { End };

    ghost coded = { Prim.hlevel (codes, message.the_row.coded, item.the_row.coded) };

    ghost view = { λ t. record { link = record { table = t.pass.table_id; key = t.pass.me.0.of }; messages = (seen t.pass).put } };

    ghost invariant = { λ t. IsSeatAt (sends_on t.sender) t.pass × (seen t.pass ≡ know true false (seen t.pass).put []) × (t.count ≡ length (seen t.pass).put) × (t.count ≤ 2 ^ 63) };
}

/// The end that receives. Contracts see which link it is of, the messages that were got, in order, and whether it was
/// told that nothing more comes.
#[derive(Drop)]
pub struct Rx {
    receiver: RuledReceiver<Item, View, InOrder>,
    pass: Pass<Item, View>,
    count: u64,
    ended: bool,
}

impl Model for Rx {
    ghost use Rattle.std.specs.Prelude.{◌≡◌, true, false, [], length, ◌≤◌, ◌^◌};
    ghost use Rattle.crossbeam_channel.specs.Claims.{view as seen, IsSeatAt};
    ghost use Rattle.crossbeam_channel.specs.Ends.{receives_on};
    ghost use Rattle.link_queue.specs.Link.{know};
    ghost use Rattle.link_queue.specs.End.{RxState};
    ghost use Rattle.std.specs.Coded.{codes};
    ghost use Rattle.link_queue.specs.contracts.item.Item as item;
    ghost use Rattle.site_exchange.specs.contracts.message.Message as message;

    ghost Value = { RxState };

    ghost coded = { Prim.hlevel (codes, message.the_row.coded, item.the_row.coded) };

    ghost view = { λ r. record { link = record { table = r.pass.table_id; key = r.pass.me.0.of }; messages = (seen r.pass).got; ended = r.ended } };

    ghost invariant = { λ r. IsSeatAt (receives_on r.receiver) r.pass × (seen r.pass ≡ know false true [] (seen r.pass).got) × (r.count ≡ length (seen r.pass).got) };
}

/// The two ends of a new link, through which nothing went, or an error where memory was refused. It has room for as many
/// messages as its capacity, which is at least 1; who sends to a full link waits.
pub fn link(alloc: Global, capacity: usize) -> Result<(Tx, Rx), AllocError>
    requires { 0 < capacity }
    ensures { IfOk result (λ r. (r.0 ≡ end_of r.1.link []) × (r.1 ≡ rx_state r.0.link [] false)) }
{
    let (sender, receiver, mut pass) = bounded_with::<Item, View, InOrder, Global>(
        alloc, capacity,
    )?;
    let other = sender.another::<Ends>(&mut pass);
    Ok((
        Tx {
            sender,
            pass,
            count: 0,
        },
        Rx {
            receiver,
            pass: other,
            count: 0,
            ended: false,
        },
    ))
}

/// Nothing more comes: the link was ended, or its sender is gone.
#[derive(Clone, Copy, PartialEq, Eq, Debug)]
pub struct Gone;

/// How many messages went in at one end of a link and came out at the other. The rest is lost with it.
#[derive(Clone, Copy, PartialEq, Eq, Debug)]
pub struct Settled {
    pub put: u64,
    pub got: u64,
}

impl Tx {
    /// Puts a message behind the others, and waits for room, after more than 2^61 messages perhaps for ever. Where the
    /// receiver is gone, or 2^63 messages were put, the message is handed back and nothing is put.
    pub fn send<R: Wait>(&mut self, rt: &R, message: Message) -> Result<(), Message>
        ensures { Sends self.old message self.new result }
    {
        if self.count >= MOST_PUT {
            return Err(message);
        }
        match self
            .sender
            .send_as::<Puts, R>(rt, &mut self.pass, Item::Message(message))
        {
            Ok(()) => {
                self.count += 1;
                Ok(())
            }
            Err(refused) => match refused.into_inner() {
                Item::Message(back) => Err(back),
                Item::End => unreachable!(),
            },
        }
    }

    /// Ends the link: a receiver that is not gone is told so behind the messages that were put. It waits for room.
    pub fn end<R: Wait>(self, rt: &R) -> TxEnd
        ensures { result ≡ self }
    {
        let Tx {
            sender,
            mut pass,
            count,
        } = self;
        // A receiver that is gone needs no mark.
        let _ = sender.send_as::<Puts, R>(rt, &mut pass, Item::End);
        TxEnd {
            sender,
            pass,
            count,
        }
    }
}

impl Rx {
    /// The next message, and waits for it; or that nothing more comes, now and ever after.
    pub fn recv<R: Wait>(&mut self, rt: &R) -> Result<Message, Gone>
        ensures message { Receives self.old self.new result }
        ensures over { self.old.ended ≡ true → IsErr result }
    {
        if self.ended {
            return Err(Gone);
        }
        match self.receiver.recv_as::<Takes, R>(rt, &mut self.pass) {
            Ok(Item::Message(message)) => {
                self.count += 1;
                Ok(message)
            }
            _ => {
                self.ended = true;
                Err(Gone)
            }
        }
    }

    /// Stops receiving.
    pub fn end(self) -> RxEnd
        ensures { result ≡ end_of self.link self.messages }
    {
        let Rx { pass, count, .. } = self;
        RxEnd { pass, count }
    }
}

/// The end that sent, which sends no more. Contracts see which link it is of, and the messages that were put.
#[derive(Drop)]
pub struct TxEnd {
    sender: RuledSender<Item, View, InOrder>,
    pass: Pass<Item, View>,
    count: u64,
}

impl Model for TxEnd {
    ghost use Rattle.std.specs.Prelude.{◌≡◌, true, false, [], length};
    ghost use Rattle.crossbeam_channel.specs.Claims.{view as seen, IsSeatAt};
    ghost use Rattle.crossbeam_channel.specs.Ends.{sends_on};
    ghost use Rattle.link_queue.specs.Link.{know};
    ghost use Rattle.link_queue.specs.End.{End};
    ghost use Rattle.std.specs.Coded.{codes};
    ghost use Rattle.link_queue.specs.contracts.item.Item as item;
    ghost use Rattle.site_exchange.specs.contracts.message.Message as message;

    ghost Value = { End };

    ghost coded = { Prim.hlevel (codes, message.the_row.coded, item.the_row.coded) };

    ghost view = { λ t. record { link = record { table = t.pass.table_id; key = t.pass.me.0.of }; messages = (seen t.pass).put } };

    ghost invariant = { λ t. IsSeatAt (sends_on t.sender) t.pass × (seen t.pass ≡ know true false (seen t.pass).put []) × (t.count ≡ length (seen t.pass).put) };
}

/// The end that received, which receives no more. Contracts see which link it is of, and the messages that were got.
#[derive(Drop)]
pub struct RxEnd {
    pass: Pass<Item, View>,
    count: u64,
}

impl Model for RxEnd {
    ghost use Rattle.std.specs.Prelude.{◌≡◌, true, false, [], length};
    ghost use Rattle.crossbeam_channel.specs.Claims.{view as seen};
    ghost use Rattle.link_queue.specs.Link.{know};
    ghost use Rattle.link_queue.specs.End.{End};
    ghost use Rattle.std.specs.Coded.{codes};
    ghost use Rattle.link_queue.specs.contracts.item.Item as item;
    ghost use Rattle.site_exchange.specs.contracts.message.Message as message;

    ghost Value = { End };

    ghost coded = { Prim.hlevel (codes, message.the_row.coded, item.the_row.coded) };

    ghost view = { λ r. record { link = record { table = r.pass.table_id; key = r.pass.me.0.of }; messages = (seen r.pass).got } };

    ghost invariant = { λ r. (r.pass.me.1 ≡ []) × (seen r.pass ≡ know false true [] (seen r.pass).got) × (r.count ≡ length (seen r.pass).got) };
}

impl TxEnd {
    /// How many messages were put.
    pub fn put(&self) -> u64
        ensures { result ≡ length self.now.messages }
    {
        self.count
    }
}

impl RxEnd {
    /// How many messages were got.
    pub fn got(&self) -> u64
        ensures { result ≡ length self.now.messages }
    {
        self.count
    }
}

/// Brings the ends of one link together: what was got is a prefix of what was put, in the same order and each once.
pub fn settle(tx: TxEnd, rx: RxEnd) -> Settled
    requires { tx.link ≡ rx.link }
    ensures prefix { IsPrefix rx.messages tx.messages }
    ensures counts { result ≡ record { put = length tx.messages; got = length rx.messages } }
{
    let TxEnd {
        sender,
        mut pass,
        count: put,
    } = tx;
    let RxEnd {
        pass: other,
        count: got,
    } = rx;
    sender.absorb::<Ends>(&mut pass, other);
    sender.learn_as::<Total>(&mut pass);
    Settled { put, got }
}
