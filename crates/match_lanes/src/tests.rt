//! Which posting is matched with which: worked cases (MPI 4.0, 3.2.4 and 3.5), and long rows of postings against the plain lists.
ghost use Rattle.std.specs.Prelude.{◌≡◌, ◌+◌, ◌≤◌, ◌<◌};

use crate::keys::Keys;
use crate::lanes::Lanes;
use crate::mail::{Match, Message, Receive};
use crate::plain::Plain;
use crate::queues::Queues;
use crate::selector::Selector;
use rt_base::{Cells, Peer, ReqNo, TagSel, TaskNo};
use std::alloc::{AllocError, Global};
use std::test::Fail;

// What is posted: a message of this communicator, source and tag, or a receive that accepts them.
#[derive(Clone, Copy, Debug)]
enum Post {
    Sent(u16, u16, u16),
    Asked(u16, Peer, TagSel),
}

// What a posting found: the requests of the message and of the receive.
type Pair = Option<(ReqNo, ReqNo)>;

// The request of this number.
fn request(nth: u32) -> ReqNo {
    ReqNo {
        task: TaskNo(0),
        nth,
    }
}

// The nth posting, as a message of no cell.
fn message(alloc: Global, nth: u32, comm: u16, source: u16, tag: u16) -> Message
    ensures comm { result.comm ≡ comm }
    ensures source { result.source ≡ source }
    ensures tag { result.tag ≡ tag }
{
    Message {
        request: request(nth),
        comm,
        source,
        tag,
        cells: Cells::empty(alloc),
    }
}

// The nth posting, as a receive.
fn wish(nth: u32, comm: u16, source: Peer, tag: TagSel) -> Receive
    ensures comm { result.comm ≡ comm }
    ensures source { result.source ≡ source }
    ensures tag { result.tag ≡ tag }
{
    Receive {
        request: request(nth),
        comm,
        source,
        tag,
    }
}

// The requests of a match.
fn pair(made: Option<Match>) -> Pair {
    let made = made?;
    Some((made.message.request, made.receive.request))
}

// The selectors of the receives among these postings.
fn keys_of(alloc: Global, posts: &[Post]) -> Result<Keys, AllocError> {
    let mut keys = Keys::empty(alloc);
    for post in posts {
        if let Post::Asked(comm, source, tag) = *post {
            if let Some(selector) = Selector::of(comm, source, tag) {
                keys.add(selector)?;
            }
        }
    }
    Ok(keys)
}

// Posts to the lanes. A receive that isn't known there is left out.
fn post_to_lanes(alloc: Global, keys: &Keys, queues: &mut Queues, nth: u32, post: Post) -> Pair
    requires keys { queues.old.keys ≡ keys.now }
    requires messages { 0 < queues.old.message_room }
    requires receives { 0 < queues.old.receive_room }
    ensures keys { queues.new.keys ≡ queues.old.keys }
    ensures messages { queues.old.message_room ≤ queues.new.message_room + 1 }
    ensures receives { queues.old.receive_room ≤ queues.new.receive_room + 1 }
{
    match post {
        Post::Sent(comm, source, tag) => {
            let doors = keys.doors_of(comm, source, tag);
            pair(queues.send(message(alloc, nth, comm, source, tag), doors))
        }
        Post::Asked(comm, source, tag) => {
            let selector = Selector::of(comm, source, tag)?;
            let lane = keys.lane_of(selector);
            if lane as usize >= keys.count() {
                return None;
            }
            pair(queues.receive(wish(nth, comm, source, tag), lane))
        }
    }
}

// Posts to the plain lists.
fn post_to_plain(
    alloc: Global,
    plain: &mut Plain,
    nth: u32,
    post: Post,
) -> Result<Pair, AllocError> {
    let made = match post {
        Post::Sent(comm, source, tag) => plain.send(message(alloc, nth, comm, source, tag))?,
        Post::Asked(comm, source, tag) => plain.receive(wish(nth, comm, source, tag))?,
    };
    Ok(pair(made))
}

// What each posting finds in the lanes.
fn found(alloc: Global, keys: &Keys, posts: &[Post]) -> Result<Vec<Pair>, AllocError> {
    let mut queues = Queues::with_room(alloc, keys, posts.len(), posts.len())?;
    let mut pairs = Vec::new(alloc);
    let mut nth: u32 = 0;
    for post in posts {
        pairs.push(post_to_lanes(alloc, keys, &mut queues, nth, *post))?;
        nth = nth.wrapping_add(1);
    }
    Ok(pairs)
}

// What each posting finds in the plain lists.
fn found_plain(alloc: Global, posts: &[Post]) -> Result<Vec<Pair>, AllocError> {
    let mut plain = Plain::empty(alloc);
    let mut pairs = Vec::new(alloc);
    let mut nth: u32 = 0;
    for post in posts {
        pairs.push(post_to_plain(alloc, &mut plain, nth, *post)?)?;
        nth = nth.wrapping_add(1);
    }
    Ok(pairs)
}

// The next number of a fixed row of numbers that look random.
fn next_number(number: u32) -> u32 {
    number.wrapping_mul(1_664_525).wrapping_add(1_013_904_223)
}

// The posting that a number stands for: of two communicators, four sources and four tags, receives with and without wildcards.
fn drawn(number: u32) -> Post {
    let bits = number >> 16;
    let comm = (bits >> 1 & 1) as u16;
    let source = (bits >> 2 & 3) as u16;
    let tag = (bits >> 4 & 3) as u16;
    if bits & 1 == 0 {
        return Post::Sent(comm, source, tag);
    }
    let source = if bits >> 6 & 1 == 0 {
        Peer::Rank(source)
    } else {
        Peer::Any
    };
    let tag = if bits >> 7 & 1 == 0 {
        TagSel::Tag(tag)
    } else {
        TagSel::Any
    };
    Post::Asked(comm, source, tag)
}

// So many postings that look random.
fn random_posts(alloc: Global, seed: u32, n: u32) -> Result<Vec<Post>, AllocError> {
    let mut posts = Vec::new(alloc);
    let mut number = seed;
    for _nth in 0..n {
        number = next_number(number);
        posts.push(drawn(number))?;
    }
    Ok(posts)
}

// So many messages of these tags, and then as many receives with this source, the last tag first, or with any tag.
fn reversed_posts(
    alloc: Global,
    tags: u16,
    source: Peer,
    any_tag: bool,
) -> Result<Vec<Post>, AllocError> {
    let mut posts = Vec::new(alloc);
    for tag in 0..tags {
        posts.push(Post::Sent(0, 1, tag))?;
    }
    for tag in 0..tags {
        let wanted = if any_tag {
            TagSel::Any
        } else {
            TagSel::Tag(tags - 1 - tag)
        };
        posts.push(Post::Asked(0, source, wanted))?;
    }
    Ok(posts)
}

// So many messages of one tag, and then as many receives of it.
fn one_channel(alloc: Global, n: u32) -> Result<Vec<Post>, AllocError> {
    let mut posts = Vec::new(alloc);
    for _nth in 0..n {
        posts.push(Post::Sent(0, 1, 7))?;
    }
    for _nth in 0..n {
        posts.push(Post::Asked(0, Peer::Rank(1), TagSel::Tag(7)))?;
    }
    Ok(posts)
}

// The same postings in the opposite order.
fn turned(alloc: Global, posts: &[Post]) -> Result<Vec<Post>, AllocError> {
    let mut other = Vec::new(alloc);
    for post in posts.iter().rev() {
        other.push(*post)?;
    }
    Ok(other)
}

#[test]
fn random_postings_are_matched_as_in_the_plain_lists(rt: HostRuntime) -> Result<(), Fail> {
    let alloc = rt.alloc();
    for seed in [1, 2, 3, 5, 8, 13] {
        let posts = random_posts(alloc, seed, 2_000)?;
        let keys = keys_of(alloc, &posts)?;
        assert_eq!(rt;
            found(alloc, &keys, &posts)?,
            found_plain(alloc, &posts)?,
            "seed {seed}"
        );
    }
    Ok(())
}

#[test]
fn one_channel_with_many_and_many_with_one_are_matched_as_in_the_plain_lists(
    rt: HostRuntime,
) -> Result<(), Fail> {
    let alloc = rt.alloc();
    let rows = [
        one_channel(alloc, 300)?,
        reversed_posts(alloc, 300, Peer::Rank(1), false)?,
        reversed_posts(alloc, 300, Peer::Any, false)?,
        reversed_posts(alloc, 300, Peer::Rank(1), true)?,
        reversed_posts(alloc, 300, Peer::Any, true)?,
    ];
    for posts in &rows {
        let keys = keys_of(alloc, posts)?;
        assert_eq!(rt; found(alloc, &keys, posts)?, found_plain(alloc, posts)?);
        let posts = turned(alloc, posts)?;
        assert_eq!(rt; found(alloc, &keys, &posts)?, found_plain(alloc, &posts)?);
    }
    Ok(())
}

#[test]
fn a_receive_takes_the_oldest_message_that_it_accepts(rt: HostRuntime) -> Result<(), Fail> {
    let alloc = rt.alloc();
    let rows = [
        (0, Peer::Any, TagSel::Any, Some(0)),
        (0, Peer::Rank(1), TagSel::Tag(5), Some(0)),
        (0, Peer::Any, TagSel::Tag(6), Some(1)),
        (0, Peer::Rank(2), TagSel::Any, Some(2)),
        (1, Peer::Any, TagSel::Any, Some(3)),
        (0, Peer::Rank(3), TagSel::Any, None),
        (0, Peer::Rank(2), TagSel::Tag(5), None),
    ];
    for (comm, source, tag, want) in rows {
        let posts = [
            Post::Sent(0, 1, 5),
            Post::Sent(0, 1, 6),
            Post::Sent(0, 2, 6),
            Post::Sent(1, 1, 5),
            Post::Sent(0, 1, 5),
            Post::Asked(comm, source, tag),
        ];
        let keys = keys_of(alloc, &posts)?;
        let last = found(alloc, &keys, &posts)?.pop();
        assert_eq!(rt; last, Some(want.map(|nth| (request(nth), request(5)))));
    }
    Ok(())
}

#[test]
fn a_search_begins_where_the_last_one_ended(rt: HostRuntime) -> Result<(), Fail> {
    let mut lanes = Lanes::with_room(rt.alloc(), 1, 3)?;
    lanes.push(0);
    lanes.push(0);
    lanes.push(0);
    lanes.unhook(0);
    lanes.unhook(1);
    assert_eq!(rt; lanes.front(0), Some(0));
    assert_eq!(rt; lanes.first(0), Some(2));
    assert_eq!(rt; lanes.front(0), Some(2));
    Ok(())
}
