//! What a worker hands over at once comes in its order, or is lost.

use crate::workers::{MOST_AT_ONCE, Post};
use bytes::Bytes;
use cb_links::{Mailbox, Taken, new_mailbox};
use cb_member::Outgoing;
use std::alloc::Global;
use std::process::Abort;
use std::sync::Wait;
use std::test::*;

const TEXTS: [&str; 3] = ["a", "b", "c"];

fn frames(rt: &impl Abort, alloc: Global) -> Vec<Outgoing> {
    let mut frames = Vec::new(alloc);
    for text in TEXTS {
        let bytes = Bytes::from_static(text.as_bytes());
        frames
            .push(Outgoing { to: None, bytes })
            .expect(rt, "memory");
    }
    frames
}

/// The texts of the frames that wait there, one behind the other.
fn texts<R: Wait + Abort>(rt: &R, alloc: Global, mailbox: &Mailbox<Vec<Outgoing>>) -> Vec<u8> {
    let mut texts = Vec::new(alloc);
    for _list in 0..9u32 {
        let Taken::Message(frames) = mailbox.take_at_once(rt) else {
            break;
        };
        for frame in &frames {
            texts
                .extend_from_slice(frame.bytes.as_slice())
                .expect(rt, "memory");
        }
    }
    texts
}

#[test]
fn what_is_handed_over_at_once_comes_in_its_order(rt: HostRuntime) {
    let (slot, mailbox) = new_mailbox(rt.alloc()).expect(&rt, "a mailbox");
    let mut post = Post::new(rt.alloc(), slot);
    post.put_all(&rt, frames(&rt, rt.alloc()));
    let texts = texts(&rt, rt.alloc(), &mailbox);
    drop(post);
    assert_eq!(&rt; texts.as_slice(), b"abc".as_slice());
}

#[test]
fn what_is_gathered_goes_before_what_is_handed_over_at_once(rt: HostRuntime) {
    let (slot, mailbox) = new_mailbox(rt.alloc()).expect(&rt, "a mailbox");
    let mut post = Post::new(rt.alloc(), slot);
    let bytes = Bytes::from_static(b"first");
    post.put(&rt, Outgoing { to: None, bytes });
    post.put_all(&rt, frames(&rt, rt.alloc()));
    let texts = texts(&rt, rt.alloc(), &mailbox);
    drop(post);
    assert_eq!(&rt; texts.as_slice(), b"firstabc".as_slice());
}

/// The sender need not wait until the worker has nothing more to do.
#[test]
fn enough_frames_are_handed_over_without_a_flush(rt: HostRuntime) {
    let (slot, mailbox) = new_mailbox(rt.alloc()).expect(&rt, "a mailbox");
    let mut post = Post::new(rt.alloc(), slot);
    for _frame in 0..MOST_AT_ONCE {
        let bytes = Bytes::from_static(b".");
        post.put(&rt, Outgoing { to: None, bytes });
    }
    let texts = texts(&rt, rt.alloc(), &mailbox);
    drop(post);
    assert_eq!(&rt; texts.len(), MOST_AT_ONCE);
}

#[test]
fn frames_that_the_channel_does_not_take_are_lost(rt: HostRuntime) {
    let (slot, mailbox) = new_mailbox(rt.alloc()).expect(&rt, "a mailbox");
    drop(mailbox);
    let mut post = Post::new(rt.alloc(), slot);
    for _frame in 0..3u32 {
        let bytes = Bytes::from_static(b"yo");
        post.put(&rt, Outgoing { to: None, bytes });
    }
    post.flush(&rt);
    assert_eq!(&rt; (post.offered, post.lost), (3, 3));
}
