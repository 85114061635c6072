ghost use Rattle.std.specs.Prelude.{◌≡◌, None, length};
ghost use Rattle.walk_rules.specs.Strategies.{asked_list};
ghost use Rattle.walk_rules.specs.Walk.{AreChosen};

use super::*;
use crate::{Asked, AskedList};
use event_class::Event;
use seed_draws::StrictTape;
use std::test::Fail;
use surw_base::STEPS;

// Two threads that can go on, each to a selected event, and one that has ended.
fn two_able() -> Announced
    ensures threads { length result ≡ 3 }
    ensures chosen { AreChosen result }
{
    let mut view = Announced::new(3);
    view.set(ThreadNo::new(0).unwrap(), Seen::Able { chosen: true });
    view.set(ThreadNo::new(1).unwrap(), Seen::Able { chosen: true });
    view
}

// A thread that is held and one that can go on, each to a selected event, and one that has ended.
fn one_held() -> Announced
    ensures threads { length result ≡ 3 }
    ensures chosen { AreChosen result }
{
    let mut view = Announced::new(3);
    view.set(ThreadNo::new(0).unwrap(), Seen::Held { chosen: true });
    view.set(ThreadNo::new(1).unwrap(), Seen::Able { chosen: true });
    view
}

// Takes the next step, if there is one to take, and answers its pick.
fn step(
    walk: &mut Walk,
    view: &Announced,
    selected: &mut StrictTape,
    other: &mut StrictTape,
) -> Option<Picked>
    requires each { length view.now ≡ length walk.old.counts }
    requires free { walk.old.waiting ≡ None }
    requires unasked { asked_list walk.old.rule ≡ None }
    requires chosen { AreChosen view.now }
    ensures counts { walk.new.counts ≡ walk.old.counts }
    ensures free { walk.new.waiting ≡ None }
    ensures unasked { asked_list walk.new.rule ≡ None }
{
    let step = walk.steps();
    if step == STEPS || view.able() == 0 || walk.wrong(view).is_some() {
        return None;
    }
    let picked = walk.pick(step, view, selected, other);
    if let Picked::Grant { thread, forced } = picked {
        let chosen = walk.left.left(thread) > 0;
        walk.done(thread, chosen, forced);
    }
    Some(picked)
}

// What grants a step to the thread of this number.
fn grant(number: u8) -> Option<Picked> {
    ThreadNo::new(number).map(|thread| Picked::Grant {
        thread,
        forced: false,
    })
}

// The first of the threads by priority, once these are drawn.
fn highest(walk: &Walk) -> Option<u16> {
    match walk.by_priority() {
        Some(links) => links.first(0),
        None => None,
    }
}

#[test]
fn a_copy_is_the_same_until_a_step(rt: HostRuntime) -> Result<(), Fail> {
    let view = two_able();
    let mut walk = Walk::new(rt.alloc(), Rule::Plain, Weights::new(&[2, 1, 0]))?;
    let before = walk.copy(rt.alloc())?;
    let mut selected = StrictTape::new(Vec::new(rt.alloc()));
    let mut other = StrictTape::new(Vec::from_slice(rt.alloc(), &[1])?);
    assert!(rt; walk.same(&before));
    assert_eq!(rt; step(&mut walk, &view, &mut selected, &mut other), grant(1));
    assert!(rt; !walk.same(&before));
    Ok(())
}

#[test]
fn a_held_thread_is_passed_over(rt: HostRuntime) -> Result<(), Fail> {
    let view = one_held();
    let mut other = StrictTape::new(Vec::from_slice(rt.alloc(), &[0])?);
    let mut walk = Walk::new(rt.alloc(), Rule::Urw, Weights::new(&[2, 1, 0]))?;
    let mut selected = StrictTape::new(Vec::from_slice(rt.alloc(), &[0])?);
    assert_eq!(rt; step(&mut walk, &view, &mut selected, &mut other), grant(1));
    let mut walk = Walk::new(rt.alloc(), Rule::Surw, Weights::new(&[2, 1, 0]))?;
    let mut selected = StrictTape::new(Vec::from_slice(rt.alloc(), &[2])?);
    assert_eq!(rt; step(&mut walk, &view, &mut selected, &mut other), grant(1));
    assert_eq!(rt; walk.intended(), None);
    Ok(())
}

#[test]
fn a_wrong_count_is_found_at_its_thread(rt: HostRuntime) -> Result<(), Fail> {
    let view = two_able();
    let walk = Walk::new(rt.alloc(), Rule::Urw, Weights::new(&[1, 0, 0]))?;
    let one = ThreadNo::new(1).unwrap();
    assert_eq!(rt; walk.wrong_at(&view, ThreadNo::new(0).unwrap()), None);
    assert_eq!(rt; walk.wrong_at(&view, one), Some((one, 0, 0)));
    assert_eq!(rt; walk.wrong(&view), Some((one, 0, 0)));
    Ok(())
}

#[test]
fn pct_lowers_the_highest_at_its_change_point(rt: HostRuntime) -> Result<(), Fail> {
    let view = two_able();
    let mut walk = Walk::new(rt.alloc(), Rule::Pct { depth: 2 }, Weights::new(&[2, 2, 0]))?;
    let mut selected = StrictTape::new(Vec::from_slice(rt.alloc(), &[1, 0, 0, 1])?);
    let mut other = StrictTape::new(Vec::new(rt.alloc()));
    assert_eq!(rt; highest(&walk), None);
    assert_eq!(rt; step(&mut walk, &view, &mut selected, &mut other), grant(1));
    assert_eq!(rt; highest(&walk), Some(1));
    assert_eq!(rt; step(&mut walk, &view, &mut selected, &mut other), grant(0));
    assert_eq!(rt; highest(&walk), Some(0));
    assert!(rt; walk.copy(rt.alloc())?.same(&walk));
    Ok(())
}

#[test]
fn a_walk_asks_for_the_entries_of_its_list(rt: HostRuntime) -> Result<(), Fail> {
    let first = Asked {
        thread: ThreadNo::new(1).unwrap(),
        event: Event::Load { c: 0 },
    };
    let second = Asked {
        thread: ThreadNo::new(0).unwrap(),
        event: Event::Oldest,
    };
    let list = AskedList::new(Vec::from_slice(rt.alloc(), &[first, second])?);
    assert_eq!(rt; list.len(), 2);
    let walk = Walk::new(rt.alloc(), Rule::Follow(list), Weights::new(&[0, 0]))?;
    assert!(rt; walk.follows());
    assert_eq!(rt; walk.asked(1), Some(second));
    assert_eq!(rt; walk.asked(2), None);
    assert!(rt; walk.copy(rt.alloc())?.same(&walk));
    let shorter = AskedList::new(Vec::from_slice(rt.alloc(), &[first])?);
    let other = Walk::new(rt.alloc(), Rule::Follow(shorter), Weights::new(&[0, 0]))?;
    assert!(rt; !other.same(&walk));
    Ok(())
}
