//! Completions that are kept, fired and forgotten.

use hk_base::{Answer, CallNo, Memory};
use hk_callback::{Callbacks, Completion, Delivery, KeepFault};

// Hands on what it is called with.
#[derive(Drop)]
struct HandOn;

impl Completion for HandOn {
    fn deliver(&self, call: CallNo, answer: &Answer) -> Result<Delivery, Memory> {
        let answer = answer.share()?;
        Ok(Delivery { call, answer })
    }
}

// Never finds memory.
#[derive(Drop)]
struct Wanting;

impl Completion for Wanting {
    fn deliver(&self, _call: CallNo, _answer: &Answer) -> Result<Delivery, Memory> {
        Err(Memory)
    }
}

// The number and whether the answer is the same, of what a call was told.
fn told(
    fired: Result<Option<Delivery>, Memory>,
    answer: &Answer,
) -> Result<Option<(CallNo, bool)>, Memory> {
    match fired {
        Ok(Some(delivery)) => Ok(Some((delivery.call, delivery.answer == *answer))),
        Ok(None) => Ok(None),
        Err(Memory) => Err(Memory),
    }
}

#[test]
fn a_call_keeps_one_completion_which_delivers_once(rt: HostRuntime) {
    let mut calls = Callbacks::new(rt.alloc());
    let seven = CallNo(7);
    assert!(rt; calls.keep(seven, HandOn).is_ok());
    assert!(rt; matches!(&calls.keep(seven, HandOn), Err(KeepFault::Kept(_))));
    assert_eq!(rt;
        told(calls.fire(seven, &Answer::Stored), &Answer::Stored),
        Ok(Some((seven, true)))
    );
    assert_eq!(rt;
        told(calls.fire(seven, &Answer::Stored), &Answer::Stored),
        Ok(None)
    );
}

#[test]
fn each_call_has_its_own_completion(rt: HostRuntime) {
    let mut calls = Callbacks::new(rt.alloc());
    assert!(rt; calls.keep(CallNo(9), HandOn).is_ok());
    assert!(rt; calls.keep(CallNo(2), HandOn).is_ok());
    assert_eq!(rt;
        told(
            calls.fire(CallNo(9), &Answer::Number(5)),
            &Answer::Number(5)
        ),
        Ok(Some((CallNo(9), true)))
    );
    assert_eq!(rt;
        told(calls.fire(CallNo(2), &Answer::Missing), &Answer::Missing),
        Ok(Some((CallNo(2), true)))
    );
}

#[test]
fn a_completion_is_kept_where_delivering_finds_no_memory(rt: HostRuntime) {
    let mut calls = Callbacks::new(rt.alloc());
    assert!(rt; calls.keep(CallNo(1), Wanting).is_ok());
    assert_eq!(rt;
        told(calls.fire(CallNo(1), &Answer::Stored), &Answer::Stored),
        Err(Memory)
    );
    assert!(rt; matches!(&calls.keep(CallNo(1), Wanting), Err(KeepFault::Kept(_))));
}

#[test]
fn a_forgotten_completion_comes_back(rt: HostRuntime) {
    let mut calls = Callbacks::new(rt.alloc());
    assert!(rt; calls.keep(CallNo(4), HandOn).is_ok());
    assert!(rt; calls.forget(CallNo(4)).is_some());
    assert!(rt; calls.forget(CallNo(4)).is_none());
    assert!(rt; calls.keep(CallNo(4), HandOn).is_ok());
}
