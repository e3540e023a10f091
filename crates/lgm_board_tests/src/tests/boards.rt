//! A pen and its eyes.

ghost use Rattle.std.specs.Prelude.{◌≡◌};

use super::shown::{Contents, Shown, look, shows};
use super::two_channels::{first_channel, has_row, two_channels};
use super::{channel, scid, update};
use lgm_graph::Known;
use lgm_publish::{Eye, Pen, board};
use lgm_store::{Map, Op};
use lgm_test_gossip::is_as_made;
use lgm_test_gossip::ops::node;
use std::alloc::Global;
use std::process::Abort;
use std::random::RandomSource;
use std::sync::Wait;
use std::test::Fail;
use std::thread;
use std::thread::Threads;

/// Appends two operations and publishes them.
fn publish_two<Rt: Wait>(rt: &Rt, pen: &mut Pen, first: Op, second: Op) -> bool
    ensures { pen.new.board ≡ pen.old.board }
{
    let one = pen.append(first).is_ok();
    let two = pen.append(second).is_ok();
    let published = pen.publish(rt).is_ok();
    one && two && published
}

/// Appends an operation and publishes it.
fn publish_one<Rt: Wait>(rt: &Rt, pen: &mut Pen, op: Op) -> bool
    ensures { pen.new.board ≡ pen.old.board }
{
    let appended = pen.append(op).is_ok();
    let published = pen.publish(rt).is_ok();
    appended && published
}

/// A pen and its only eye, which learns what is published so far.
fn pen_and_eye<Rt: Wait + RandomSource + Abort>(
    rt: &Rt,
    alloc: Global,
    known: &Known,
) -> Result<(Pen, Eye), Fail> {
    let (mut pen, mut eyes) = board(rt, alloc, 1, known)?;
    let mut eye = eyes.pop().expect(rt, "an eye");
    eye.learn(pen.tell());
    Ok((pen, eye))
}

/// What an eye is shown while its pen publishes.
#[derive(Clone, Copy, Debug, PartialEq, Eq)]
struct Story {
    /// Before anything is appended.
    first: Option<Shown>,
    /// After the channel and its updates are published.
    published: Option<Shown>,
    /// While the channel's close is appended alone.
    pending: Option<Shown>,
    /// After the close is published.
    closed: Option<Shown>,
    /// After the pen has ended.
    ended: Option<Shown>,
    /// Whether all was appended and published, and how many operations.
    done: (bool, u64),
}

/// Two operations are published and then one, and then the channel is closed.
fn watch<Rt: Wait>(rt: &Rt, mut pen: Pen, eye: Eye, (first, second, third): (Op, Op, Op)) -> Story {
    let (eye, before) = look(eye);
    let two = publish_two(rt, &mut pen, first, second);
    let one = publish_one(rt, &mut pen, third);
    let (eye, published) = look(eye);
    let appended = pen.append(Op::Close(scid())).is_ok();
    let (eye, pending) = look(eye);
    let last = pen.publish(rt).is_ok();
    let (eye, closed) = look(eye);
    let count = pen.published();
    pen.end(rt);
    let (_eye, ended) = look(eye);
    Story {
        first: before,
        published,
        pending,
        closed,
        ended,
        done: (two && one && appended && last, count),
    }
}

/// A map without the channel.
const fn without(version: u64) -> Shown {
    let map = Contents {
        sat: 0,
        updates: (false, false),
    };
    Shown {
        version,
        map,
        edges: 0,
    }
}

#[test]
fn an_eye_is_shown_what_was_published(rt: HostRuntime) -> Result<(), Fail> {
    let alloc = rt.alloc();
    let ops = (channel(alloc)?, update(alloc, 0)?, update(alloc, 1)?);
    let (pen, eye) = pen_and_eye(&rt, alloc, &Known::all())?;
    let both_ways = Shown {
        version: 3,
        map: Contents {
            sat: 100_000,
            updates: (true, true),
        },
        edges: 2,
    };
    let want = Story {
        first: Some(without(0)),
        published: Some(both_ways),
        pending: Some(both_ways),
        closed: Some(without(4)),
        ended: None,
        done: (true, 4),
    };
    assert_eq!(rt; watch(&rt, pen, eye, ops), want);
    Ok(())
}

/// Whether an eye is shown a view with the edges of one that is made of its map, and no others.
fn has_its_view(alloc: Global, eye: Eye) -> (Eye, bool) {
    match eye.enter() {
        Ok(guard) => {
            let same = is_as_made(alloc, guard.view(), guard.map(), &Known::all());
            (guard.leave(), same == Ok(true))
        }
        Err(eye) => (eye, false),
    }
}

/// Whether all was published, and the eye was shown such a view before it, after two operations, after one more, and once the
/// channel is closed.
fn are_as_made<Rt: Wait>(
    rt: &Rt,
    alloc: Global,
    mut pen: Pen,
    eye: Eye,
    (one, two, three): (Op, Op, Op),
) -> (bool, [bool; 4]) {
    let (eye, first) = has_its_view(alloc, eye);
    let both = publish_two(rt, &mut pen, one, two);
    let (eye, second) = has_its_view(alloc, eye);
    let more = publish_one(rt, &mut pen, three);
    let (eye, third) = has_its_view(alloc, eye);
    let closed = publish_one(rt, &mut pen, Op::Close(scid()));
    let (_eye, last) = has_its_view(alloc, eye);
    pen.end(rt);
    (both && more && closed, [first, second, third, last])
}

#[test]
fn a_guard_has_the_edges_of_a_view_of_its_map(rt: HostRuntime) -> Result<(), Fail> {
    let alloc = rt.alloc();
    let ops = (channel(alloc)?, update(alloc, 0)?, update(alloc, 1)?);
    let (pen, eye) = pen_and_eye(&rt, alloc, &Known::all())?;
    assert_eq!(rt; are_as_made(&rt, alloc, pen, eye, ops), (true, [true; 4]));
    Ok(())
}

/// How many edges a guard's view has once these are published.
fn edges_of<Rt: Wait>(rt: &Rt, mut pen: Pen, eye: Eye, ops: (Op, Op, Op)) -> Option<usize> {
    let (first, second, third) = ops;
    let two = publish_two(rt, &mut pen, first, second);
    let one = publish_one(rt, &mut pen, third);
    let (_eye, shown) = look(eye);
    pen.end(rt);
    if two && one {
        shown.map(|shown| shown.edges)
    } else {
        None
    }
}

/// The channel's second node requires a feature that not everyone knows.
#[test]
fn views_are_under_the_known_features(rt: HostRuntime) -> Result<(), Fail> {
    let alloc = rt.alloc();
    for (known, want) in [(Known::all(), 1usize), (Known::bits(alloc, &[0])?, 0)] {
        let ops = (channel(alloc)?, update(alloc, 0)?, node(alloc, 11, &[1])?);
        let (pen, eye) = pen_and_eye(&rt, alloc, &known)?;
        assert_eq!(rt; edges_of(&rt, pen, eye, ops), Some(want));
    }
    Ok(())
}

/// A pen and two eyes, neither of which learns anything.
fn pen_and_two_eyes<Rt: Wait + RandomSource + Abort>(
    rt: &Rt,
    alloc: Global,
) -> Result<(Pen, Eye, Eye), Fail> {
    let (pen, mut eyes) = board(rt, alloc, 2, &Known::all())?;
    let second = eyes.pop().expect(rt, "an eye");
    let first = eyes.pop().expect(rt, "another eye");
    Ok((pen, first, second))
}

/// What a guard shows of the two channels.
#[derive(Clone, Copy, Debug, PartialEq, Eq)]
struct Read {
    version: u64,
    /// Whether the map has the row of the first channel.
    whole: bool,
    /// Whether a copy of the map has it.
    copied: bool,
    edges: usize,
}

/// What a guard of the eye shows, if there is one, where these are the bytes of the first channel's announcement.
fn read_row(alloc: Global, eye: Eye, bytes: &[u8]) -> (Eye, Option<Read>) {
    match eye.enter() {
        Ok(guard) => {
            let row = Read {
                version: guard.version(),
                whole: has_row(guard.map(), bytes),
                copied: copy_has_row(alloc, guard.map(), bytes),
                edges: guard.view().edge_count(),
            };
            (guard.leave(), Some(row))
        }
        Err(eye) => (eye, None),
    }
}

/// Whether a copy of a map has the row of the first channel.
fn copy_has_row(alloc: Global, map: &Map, bytes: &[u8]) -> bool {
    match map.copy(alloc) {
        Ok(copy) => has_row(&copy, bytes),
        Err(_) => false,
    }
}

/// What two eyes are shown, one of which learns what is published.
#[derive(Clone, Copy, Debug, PartialEq, Eq)]
struct Told {
    told: Option<Read>,
    other: Option<u64>,
    /// What the first eye is shown while a fourth operation is appended alone.
    next: Option<Read>,
    published: u64,
}

/// Two operations are published, and then one; one eye learns of it.
fn watch_two<Rt: Wait + RandomSource + Abort>(
    rt: &Rt,
    alloc: Global,
    (one, two, three, four): (Op, Op, Op, Op),
    bytes: &[u8],
) -> Result<Told, Fail> {
    let (mut pen, mut eyes) = board(rt, alloc, 2, &Known::all())?;
    let mut first = eyes.pop().expect(rt, "an eye");
    let second = eyes.pop().expect(rt, "another eye");
    publish_two(rt, &mut pen, one, two);
    publish_one(rt, &mut pen, three);
    first.learn(pen.tell());
    let (first, told) = read_row(alloc, first, bytes);
    let (_second, other) = look(second);
    let _ = pen.append(four);
    let (_first, next) = read_row(alloc, first, bytes);
    let published = pen.published();
    pen.end(rt);
    Ok(Told {
        told,
        other: other.map(|shown| shown.version),
        next,
        published,
    })
}

// The eye that didn't learn is shown one of the versions.
#[test]
fn an_eye_that_was_told_and_one_that_was_not(rt: HostRuntime) -> Result<(), Fail> {
    let alloc = rt.alloc();
    let bytes = first_channel().bytes(alloc)?;
    let story = watch_two(&rt, alloc, two_channels(alloc)?, bytes.as_slice())?;
    let third = Read {
        version: 3,
        whole: true,
        copied: true,
        edges: 1,
    };
    assert_eq!(rt; story.told, Some(third));
    assert_eq!(rt; story.next, Some(third));
    assert_eq!(rt; story.published, 3);
    assert!(rt; story.other == Some(0) || story.other == Some(2) || story.other == Some(3));
    Ok(())
}

/// What a guard of the first eye shows before and after a look through the second one, and whether that one entered.
fn look_twice(first: Eye, second: Eye) -> Option<(Shown, Shown, bool)> {
    let guard = match first.enter() {
        Ok(guard) => guard,
        Err(_eye) => return None,
    };
    let before = shows(&guard);
    let (_second, beside) = look(second);
    let after = shows(&guard);
    guard.leave();
    Some((before, after, beside.is_some()))
}

/// What a guard shows while another thread publishes twice, and how much is published in the end.
fn watch_beside<Rt: Wait + Threads>(
    rt: &Rt,
    mut pen: Pen,
    eyes: (Eye, Eye),
    (one, two, three): (Op, Op, Op),
) -> (Option<(Shown, Shown, bool)>, u64) {
    publish_one(rt, &mut pen, one);
    let mut eyes = Some(eyes);
    let mut ops = Some((two, three));
    let (shown, ()) = thread::join_mut(
        rt,
        &mut || match eyes.take() {
            Some((first, second)) => look_twice(first, second),
            None => None,
        },
        &mut || {
            if let Some((two, three)) = ops.take() {
                publish_one(rt, &mut pen, two);
                publish_one(rt, &mut pen, three);
            }
        },
    );
    let published = pen.published();
    pen.end(rt);
    (shown, published)
}

// A guard shows what it was entered on, whatever is published meanwhile. The other eye isn't delayed.
#[test]
fn a_guard_is_held_over_a_publication(rt: HostRuntime) -> Result<(), Fail> {
    let alloc = rt.alloc();
    let ops = (channel(alloc)?, update(alloc, 0)?, update(alloc, 1)?);
    let (pen, first, second) = pen_and_two_eyes(&rt, alloc)?;
    let (shown, published) = watch_beside(&rt, pen, (first, second), ops);
    assert_eq!(rt; published, 3);
    let (before, after, beside) = shown.expect(&rt, "a guard");
    assert_eq!(rt; before, after);
    assert!(rt; beside);
    Ok(())
}

/// The version of a guard that is kept over one publication, and that of the next one.
fn hold_over_one<Rt: Wait>(rt: &Rt, pen: &mut Pen, eye: Eye, op: Op) -> Option<(u64, u64)> {
    let guard = match eye.enter() {
        Ok(guard) => guard,
        Err(_eye) => return None,
    };
    publish_one(rt, pen, op);
    let stored = guard.version();
    let (_eye, shown) = look(guard.leave());
    shown.map(|shown| (stored, shown.version))
}

/// A publication waits for no guard of the snapshot right before it, so one thread can keep the guard and publish. If
/// it published twice, this wouldn't end.
#[test]
fn one_publication_waits_for_no_guard(rt: HostRuntime) -> Result<(), Fail> {
    let op = channel(rt.alloc())?;
    let (mut pen, eye) = pen_and_eye(&rt, rt.alloc(), &Known::all())?;
    let versions = hold_over_one(&rt, &mut pen, eye, op);
    pen.end(&rt);
    assert_eq!(rt; versions, Some((0, 1)));
    Ok(())
}

/// Publishes each operation by itself, and returns what the eye is shown then.
fn publish_each<Rt: Wait>(rt: &Rt, mut pen: Pen, eye: Eye, ops: Vec<Op>) -> Option<Shown> {
    for op in ops {
        publish_one(rt, &mut pen, op);
    }
    let (_eye, shown) = look(eye);
    pen.end(rt);
    shown
}

// The channel is added and closed a hundred times.
#[test]
fn two_hundred_versions(rt: HostRuntime) -> Result<(), Fail> {
    let alloc = rt.alloc();
    let mut ops = Vec::new(alloc);
    for _turn in 0..100 {
        ops.push(channel(alloc)?)?;
        ops.push(Op::Close(scid()))?;
    }
    let (pen, eye) = pen_and_eye(&rt, alloc, &Known::all())?;
    assert_eq!(rt; publish_each(&rt, pen, eye, ops), Some(without(200)));
    Ok(())
}
