//! Mailboxes of a listed run, and of cores on threads of their own.

use osbase::{CoreId, Envelope, Letter, Message, Status};
use osmail::{ListMail, LockedMail, Mail, MailStep, RingEnd, RingMail};
use std::alloc::Global;
use std::process::Abort;
use std::sync::Wait;
use std::test::Fail;

const FIRST: CoreId = CoreId { number: 0 };

const SECOND: CoreId = CoreId { number: 7 };

const LAST: CoreId = CoreId { number: 15 };

fn envelope(number: u64, message: Message) -> Envelope {
    let letter = Letter { number, message };
    Envelope { letter, clock: 0 }
}

// An envelope that answers a call with the value -3.
fn value(number: u64) -> Envelope {
    envelope(number, Message::Value(Status::EOk, -3))
}

// An envelope that replies `E_OK` to a request.
fn reply(number: u64) -> Envelope {
    envelope(number, Message::Reply(Status::EOk))
}

// Checks that the mailbox from the first core to the last has room for two envelopes, and hands a third one back. The
// mailbox the other way gets one envelope.
fn fill_list(rt: &impl Abort, mail: &mut ListMail<4>) {
    assert!(rt; mail.has_room(FIRST, LAST));
    assert!(rt; !mail.has_mail(LAST));
    assert_eq!(rt; mail.send(FIRST, LAST, value(0)), Ok(()));
    assert!(rt; mail.has_mail(LAST));
    assert_eq!(rt; mail.send(LAST, FIRST, value(7)), Ok(()));
    assert_eq!(rt; mail.send(FIRST, LAST, value(1)), Ok(()));
    assert!(rt; !mail.has_room(FIRST, LAST));
    assert_eq!(rt; mail.send(FIRST, LAST, value(2)), Err(value(2)));
}

// Takes all envelopes out of the mailboxes, and checks that they leave in the order in which they were sent.
fn empty_list(rt: &impl Abort, mail: &mut ListMail<4>) {
    assert_eq!(rt; mail.take(LAST, FIRST), Some(value(0)));
    assert_eq!(rt; mail.take(LAST, FIRST), Some(value(1)));
    assert_eq!(rt; mail.take(LAST, FIRST), None);
    assert!(rt; !mail.has_mail(LAST));
    assert!(rt; mail.has_mail(FIRST));
    assert_eq!(rt; mail.take(FIRST, LAST), Some(value(7)));
    assert_eq!(rt; mail.take(FIRST, FIRST), None);
}

#[test]
fn envelopes_leave_in_the_order_in_which_they_came(rt: HostRuntime) -> Result<(), Fail> {
    let mut mail: ListMail<4> = ListMail::new(rt.alloc(), 2)?;
    fill_list(&rt, &mut mail);
    empty_list(&rt, &mut mail);
    Ok(())
}

// Makes room for one call at this end of the mail, sends this envelope, and checks the answer.
fn sends<R: Abort, M: Mail>(
    rt: &R,
    end: &mut M,
    to: CoreId,
    envelope: Envelope,
    answer: Result<(), Envelope>,
) -> Result<(), Fail> {
    end.room()?;
    assert_eq!(rt; end.send(to, envelope), answer);
    Ok(())
}

// Makes room for one call at this end of the mail, and checks that the end takes this envelope, or none.
fn takes<R: Abort, M: Mail>(
    rt: &R,
    end: &mut M,
    from: CoreId,
    envelope: Option<Envelope>,
) -> Result<(), Fail> {
    end.room()?;
    assert_eq!(rt; end.take(from), envelope);
    Ok(())
}

// Checks that two envelopes fill the mailbox from the sender to the receiver, that a third one comes back, and that the
// oldest one leaves.
fn fills<R: Abort, M: Mail>(
    rt: &R,
    sender: &mut M,
    receiver: &mut M,
    (from, to): (CoreId, CoreId),
) -> Result<(), Fail> {
    for number in 0..2u64 {
        sends(rt, sender, to, reply(number), Ok(()))?;
    }
    sends(rt, sender, to, reply(2), Err(reply(2)))?;
    takes(rt, sender, to, None)?;
    takes(rt, receiver, from, Some(reply(0)))
}

// Checks that a full mailbox, once an envelope has left it, takes the next envelope in order, and refuses the one after
// that.
fn take_in_turn<R: Abort, M: Mail>(rt: &R, sender: &mut M, receiver: &mut M) -> Result<(), Fail> {
    fills(rt, sender, receiver, (FIRST, SECOND))?;
    sends(rt, sender, SECOND, reply(3), Err(reply(3)))?;
    sends(rt, sender, SECOND, reply(2), Ok(()))
}

// The steps of the first core's end and of the second core's, after `take_in_turn`.
fn steps_of(
    rt: &(impl Abort + Wait),
    alloc: Global,
    mail: &LockedMail<4>,
) -> Result<(Vec<MailStep>, Vec<MailStep>), Fail> {
    let mut sender = mail.end(rt, alloc, FIRST);
    let mut receiver = mail.end(rt, alloc, SECOND);
    take_in_turn(rt, &mut sender, &mut receiver)?;
    Ok((sender.into_steps(), receiver.into_steps()))
}

// Checks that the mailbox from the first core to the second has what was sent and not taken, and that this comparison
// fails if the steps of taking are left out.
fn is_settled(rt: &impl Abort, mail: &mut LockedMail<4>, sent: &[MailStep], taken: &[MailStep]) {
    let Some(left) = mail.left(FIRST, SECOND) else {
        panic!(rt; "a mailbox")
    };
    assert!(rt; left.settles(FIRST, sent, SECOND, taken));
    assert!(rt; !left.settles(FIRST, sent, SECOND, &[]));
}

#[test]
fn what_is_taken_and_left_is_what_was_sent(rt: HostRuntime) -> Result<(), Fail> {
    let mut mail: LockedMail<4> = LockedMail::new(rt.alloc(), &[FIRST, SECOND], 2)?;
    let (sent, taken) = steps_of(&rt, rt.alloc(), &mail)?;
    is_settled(&rt, &mut mail, sent.as_slice(), taken.as_slice());
    Ok(())
}

// Checks that rings pass envelopes both ways, each in order.
fn pass_both_ways(
    rt: &impl Abort,
    sender: &mut RingEnd,
    receiver: &mut RingEnd,
) -> Result<(), Fail> {
    fills(rt, sender, receiver, (FIRST, LAST))?;
    assert_eq!(rt; sender.send(LAST, reply(2)), Ok(()));
    assert_eq!(rt; receiver.send(FIRST, value(0)), Ok(()));
    assert_eq!(rt; receiver.take(FIRST), Some(reply(1)));
    assert_eq!(rt; sender.take(LAST), Some(value(0)));
    assert_eq!(rt; receiver.take(FIRST), Some(reply(2)));
    assert_eq!(rt; receiver.take(FIRST), None);
    Ok(())
}

#[test]
fn envelopes_leave_a_ring_in_the_order_in_which_they_came(rt: HostRuntime) -> Result<(), Fail> {
    let made: (RingMail<4>, Vec<RingEnd>) = RingMail::new(rt.alloc(), &[FIRST, LAST], 2)?;
    let (_mail, mut ends) = made;
    let (Some(mut receiver), Some(mut sender)) = (ends.pop(), ends.pop()) else {
        panic!(rt; "two ends")
    };
    pass_both_ways(&rt, &mut sender, &mut receiver)
}

#[test]
fn an_end_has_rings_to_the_cores_of_its_run_alone(rt: HostRuntime) -> Result<(), Fail> {
    let (first, other) = (CoreId { number: 3 }, CoreId { number: 4 });
    let made: (RingMail<4>, Vec<RingEnd>) = RingMail::new(rt.alloc(), &[first], 1)?;
    let (_mail, mut ends) = made;
    let Some(mut end) = ends.pop() else {
        panic!(rt; "an end")
    };
    assert_eq!(rt; end.send(other, reply(0)), Err(reply(0)));
    assert_eq!(rt; end.take(other), None);
    assert_eq!(rt; end.send(first, reply(0)), Ok(()));
    assert_eq!(rt; end.take(first), Some(reply(0)));
    Ok(())
}
