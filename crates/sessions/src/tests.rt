// Calls over memory and lengths that a caller makes itself, and over memory that is fitted to what is lent.
use crate::records::{follow, follow_fitted};
use lending::damage::{Change, Damage, Slice};
use lending::memory::Memory;
use lending::session::{Lengths, Session, State};
use std::test::Fail;

// Writes a byte of a record.
fn put(record: &mut [u8], at: usize, value: u8) {
    if let Some(byte) = record.get_mut(at) {
        *byte = value;
    }
}

// What sets up 5 stops, each leg the same, with one stop near each and room for 512 entries.
fn five_stops(leg: u8) -> [u8; 70] {
    let mut record = [0; 70];
    for (at, value) in [
        (0, 5),
        (4, 1),
        (12, 25),
        (16, 5),
        (25, 10),
        (28, 1),
        (32, leg),
        (36, leg),
        (52, 1),
        (60, 1),
    ] {
        put(&mut record, at, value);
    }
    record
}

// A load of the stops in order, which is to be accepted with this time.
fn load(stops: u8, time: u8) -> [u8; 120] {
    let mut record = [0; 120];
    for (at, value) in [(0, 1), (36, stops), (52, time), (80, 1)] {
        put(&mut record, at, value);
    }
    // The start round, and the round that is left.
    for stop in 0..stops.min(8) {
        put(&mut record, 88 + 2 * stop as usize, stop);
        put(&mut record, 88 + 2 * (stops.min(8) + stop) as usize, stop);
    }
    record
}

// So many stops, with one near each and no alpha list.
fn by_hand(stops: u8) -> Session {
    let n = stops as usize;
    let lengths = Lengths {
        matrix: n * n,
        near: n,
        alpha: 0,
        round: n,
        places: n,
        queue: n,
        flags: n,
        scratch: n,
        journal: 2560,
    };
    Session {
        n,
        k: 1,
        ka: 0,
        lengths,
        state: State {
            draw: 1,
            ..State::default()
        },
    }
}

#[test]
fn what_a_session_made_by_hand_lends_is_there(rt: HostRuntime) -> Result<(), Fail> {
    let mut memory = Memory::new(rt.alloc())?;
    if let Some(near) = memory.plan.near.get_mut(0) {
        *near = 1;
    }
    let mut session = by_hand(5);
    let met = follow(&mut session, &mut memory, 5, &load(5, 0)).ok_or("no call")?;
    assert!(rt; met.agreed, "a load of five stops");
    Ok(())
}

#[test]
fn what_lengths_put_after_a_set_up_lend_is_there(rt: HostRuntime) -> Result<(), Fail> {
    let mut memory = Memory::new(rt.alloc())?;
    let mut session = Session::default();
    let met = follow(&mut session, &mut memory, 3, &five_stops(0));
    assert!(rt; met.is_none(), "a set-up is no call");
    session = by_hand(6);
    let met = follow(&mut session, &mut memory, 5, &load(6, 0)).ok_or("no call")?;
    assert!(rt; met.agreed, "a load of six stops");
    Ok(())
}

#[test]
fn a_word_past_what_is_lent_is_set(rt: HostRuntime) -> Result<(), Fail> {
    let mut memory = Memory::new(rt.alloc())?;
    let mut session = by_hand(5);
    let change = Change::Set { index: 7, value: 9 };
    Damage::Strike(Slice::Places, change).apply(&mut session, &mut memory);
    assert_eq!(rt; memory.work.places.get(7).copied(), Some(9));
    Ok(())
}

#[test]
fn what_is_fitted_is_as_long_as_what_is_lent(rt: HostRuntime) -> Result<(), Fail> {
    let mut memory = Memory::with_room(rt.alloc())?;
    let mut session = Session::default();
    let met = follow_fitted(&mut session, &mut memory, 3, &five_stops(10));
    assert!(rt; met.is_none(), "a set-up is no call");
    let met = follow_fitted(&mut session, &mut memory, 5, &load(5, 50)).ok_or("no call")?;
    assert!(rt; met.agreed, "a load of five stops");
    assert_eq!(rt; memory.work.places.len(), 5);
    assert_eq!(rt; memory.work.journal.len(), 2560);
    // The places are cut to 3.
    let mut cut = [0; 20];
    for (at, value) in [(0, 2), (4, 4), (8, 3)] {
        put(&mut cut, at, value);
    }
    let met = follow_fitted(&mut session, &mut memory, 4, &cut);
    assert!(rt; met.is_none(), "damage is no call");
    assert_eq!(rt; memory.work.places.len(), 3);
    Ok(())
}

#[test]
fn no_more_is_kept_than_there_is_room_for(rt: HostRuntime) -> Result<(), Fail> {
    let alloc = rt.alloc();
    let mut memory = Memory::new(alloc)?;
    memory.work.places.fill(3);
    memory.kept.places = vec![in alloc; 0; 2]?;
    memory.kept.keep(&memory.work);
    assert_eq!(rt; memory.kept.places.as_slice(), [3, 3].as_slice());
    Ok(())
}
