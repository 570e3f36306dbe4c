// lib.rt - room in a full journal that is turned: the fewest oldest records are dropped, by the starts that are known where they reach.
// Means: specs/Held.antt.  Laws: proofs/HeldLaws.antt, proofs/KeepLaws.antt; WrapLaws of the crate starts.
// Uses: oldest, turned, starts, record, numbers.  Source: [K5], [ours].
#![tactic(auto)]

ghost use Rattle.std.specs.Prelude.{◌≡◌, ◌+◌, ◌-◌, ◌^◌, ◌≤◌, ◌<◌, length};
ghost use Rattle.std.proofs.Math.Seq.{slice};
ghost use Rattle.numbers.specs.Number.{written};
ghost use Rattle.record.specs.Limits.{longest_record};
ghost use Rattle.turned.specs.Turned.{turned};
ghost use Rattle.oldest.specs.Room.{missing};
ghost use Rattle.starts.specs.Starts.{Indexed, FirstIs, Known};
ghost use Rattle.held.specs.Held.{CutOff, DropIs, HeldIs};

use oldest::{make_room, move_down};
use record::limits::LONGEST_RECORD;
use starts::near::{first_kept, refill};
use turned::{drop_turned, move_to, turn_back};

// What make_room answers, with the number 0; how far the journal is turned, the first entry of the list, and all bytes dropped so far.
#[derive(Clone, Copy)]
pub struct Held {
    pub mark: usize,
    pub dropped: usize,
    pub b: usize,
    pub i: usize,
    pub base: usize,
}

// Drops the oldest c bytes of a journal that is turned by b in its first h bytes, of which fewer than c are left: what crosses into these
// takes the places of what goes, first those at their end and then those at their start.
fn drop_wrapped(journal: &mut [u8], b: usize, h: usize, c: usize, mark: usize)
    requires { (b ≤ h) × (h ≤ b + c) × (c ≤ h) × (h + c ≤ mark) × (mark ≤ length journal.old) }
    ensures { turned (c - (h - b)) h journal.new ≡ written (turned b h journal.old) 0 (slice c mark (turned b h journal.old)) }
{
    let r = h - b;
    move_to(journal, h, h + r, b);
    move_to(journal, h + r, h + c, 0);
    move_to(journal, h + c, mark, h);
}

// The same by turning the journal back and moving all.
fn drop_moved(journal: &mut [u8], b: usize, h: usize, c: usize, mark: usize) -> usize
    requires { (b ≤ h) × (h ≤ length journal.old) × (c ≤ mark) × (mark ≤ length journal.old) }
    ensures { CutOff (turned b h journal.old) c mark h journal.new result }
{
    turn_back(journal, b, h);
    move_down(journal, c, mark);
    0
}

// Drops the oldest c bytes, and answers by how much the journal is turned then: all of it is moved only where the mark would come below the
// turned part, or this is shorter than what goes.
fn drop_oldest(journal: &mut [u8], b: usize, h: usize, c: usize, mark: usize) -> usize
    requires { (b ≤ h) × (h ≤ length journal.old) × (c ≤ mark) × (mark ≤ length journal.old) }
    ensures { CutOff (turned b h journal.old) c mark h journal.new result }
{
    if mark - c < h {
        return drop_moved(journal, b, h, c, mark);
    }
    if c <= h - b {
        drop_turned(journal, b, h, c, mark);
        return b + c;
    }
    if h < c {
        return drop_moved(journal, b, h, c, mark);
    }
    drop_wrapped(journal, b, h, c, mark);
    c - (h - b)
}

// Drops the records before entry k of the list.
fn drop_near(
    journal: &mut [u8],
    mark: usize,
    len: usize,
    need: usize,
    b: usize,
    h: usize,
    base: usize,
    near: &[usize],
    i: usize,
    k: usize,
) -> Held
    requires mark_in_bounds { (mark ≤ length journal.old) × (b ≤ h) × (h ≤ length journal.old) × (len ≤ 2 ^ 32) }
    requires mark_len_bound { (length journal.old - mark < longest_record) × (longest_record ≤ length journal.old) × (need ≡ missing journal.old mark) }
    requires i_in_bounds { (i ≤ length near.now) × (k < length near.now) × FirstIs near.now i (length near.now) base need k × Indexed len (turned b h journal.old) mark near.now i (length near.now) base }
    ensures { DropIs len (turned b h journal.old) mark h base journal.new near.now result }
{
    let c = near[k] - base;
    let turned_by = drop_oldest(journal, b, h, c, mark);
    Held {
        mark: mark - c,
        dropped: k - i,
        b: turned_by,
        i: k,
        base: near[k],
    }
}

// Makes room by walking all the way back; the list has no entry then.
fn drop_walked(
    journal: &mut [u8],
    mark: usize,
    len: usize,
    b: usize,
    h: usize,
    base: usize,
    near: &[usize],
) -> Held
    requires mark_in_bounds { (mark ≤ length journal.old) × (b ≤ h) × (h ≤ length journal.old) × (len ≤ 2 ^ 32) × (base + mark < 2 ^ 64) }
    requires mark_len_bound { (length journal.old - mark < longest_record) × (longest_record ≤ length journal.old) × Indexed len (turned b h journal.old) mark near.now (length near.now) (length near.now) base }
    ensures { DropIs len (turned b h journal.old) mark h base journal.new near.now result }
{
    turn_back(journal, b, h);
    let room = make_room(journal, mark, len);
    let next = room.mark;
    Held {
        mark: next,
        dropped: room.dropped,
        b: 0,
        i: near.len(),
        base: base + (mark - next),
    }
}

// Room in a run, where it is short: by the list, else by the list noted anew from a post, else by walking back.
pub fn room_held(
    journal: &mut [u8],
    mark: usize,
    len: usize,
    b: usize,
    h: usize,
    base: usize,
    spread: usize,
    posts: &[usize],
    near: &mut [usize],
    i: usize,
) -> Held
    requires mark_in_bounds { (mark ≤ length journal.old) × (b ≤ h) × (h ≤ length journal.old) × (len ≤ 2 ^ 32) × (base + mark < 2 ^ 64) }
    requires mark_len_bound { (length journal.old - mark < longest_record) × (longest_record ≤ length journal.old) }
    requires spread_nonzero { (0 < spread) × (0 < length posts.now) × (0 < length near.old) × Known len (turned b h journal.old) mark posts.now near.old i base }
    ensures { HeldIs len (turned b h journal.old) mark h base journal.new posts.now near.new result }
{
    let need = LONGEST_RECORD - (journal.len() - mark);
    let k = first_kept(near, i, base, need);
    if k < near.len() {
        return drop_near(journal, mark, len, need, b, h, base, near, i, k);
    }
    let first = refill(journal, mark, len, need, b, h, base, spread, posts, near);
    let found = first_kept(near, first, base, need);
    if found < near.len() {
        return drop_near(journal, mark, len, need, b, h, base, near, first, found);
    }
    drop_walked(journal, mark, len, b, h, base, near)
}
