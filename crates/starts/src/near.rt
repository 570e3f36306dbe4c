// near.rt - the list of the starts of the oldest records: searched, and noted anew from a post that stands a little above place 0.
// Means: specs/Starts.antt.  Laws: proofs/StartLaws.antt, SkipLaws.antt, WrapLaws.antt, NearLaws.antt.
// Uses: turned, numbers.  Source: [01 The journal], [ours].
ghost use Rattle.std.specs.Prelude.{◌≡◌, ℕ, ◌+◌, ◌^◌, ◌≤◌, ◌<◌, length, get_or};
ghost use Rattle.numbers.specs.Number.{back};
ghost use Rattle.turned.specs.Turned.{turned};
ghost use Rattle.starts.specs.Starts.{before_record, Known, FirstIs, HalfIs, BelowIs, FillFrom, FilledIs};

use crate::posts::post_after;

// The first entry from i on that is at least need above base, or the length.
pub fn first_kept(near: &[usize], i: usize, base: usize, need: usize) -> usize
    requires { (i ≤ length near.now) × ((k : ℕ) → i ≤ k → k < length near.now → base ≤ get_or near.now k 0) }
    ensures { FirstIs near.now i (length near.now) base need result }
{
    for k in i..near.len() {
        if need <= near[k] - base {
            return k;
        }
    }
    near.len()
}

// Byte q of a journal that is turned by b in its first h bytes.
fn byte_at(journal: &[u8], b: usize, h: usize, q: usize) -> usize
    requires { (b ≤ h) × (h ≤ length journal.now) × (q < length journal.now) }
    ensures { (result ≡ get_or (turned b h journal.now) q 0) × (result < 256) }
{
    if q < h - b {
        return journal[b + q] as usize;
    }
    if q < h {
        return journal[q - (h - b)] as usize;
    }
    journal[q] as usize
}

// Where the record that ends at place end starts, if it is well shaped: of each number the first byte, and no other, is below 128.
fn record_start(journal: &[u8], b: usize, h: usize, end: usize) -> usize
    requires { (b ≤ h) × (h ≤ length journal.now) × (2 ≤ end) × (end ≤ length journal.now) }
    ensures { (result ≤ end) × (back (turned b h journal.now) result ≡ before_record (back (turned b h journal.now) end)) }
{
    let mut s = end - 2;
    let mut left = 2 * (byte_at(journal, b, h, s) + byte_at(journal, b, h, s + 1));
    // No for: the bytes that are read tell how far it goes.
    while 0 < left {
        if s == 0 {
            return 0;
        }
        s -= 1;
        left -= 1 - byte_at(journal, b, h, s) / 128;
    }
    s
}

// Moves the lower half of a full list to its end, and answers its first entry there: the oldest starts are kept.
fn keep_oldest(near: &mut [usize]) -> usize
    requires { 0 < length near.old }
    ensures { HalfIs near.old near.new result }
{
    let half = near.len() / 2;
    let from = near.len() - half;
    near.copy_within(..half, from);
    from
}

// The entry below entry i, where the next start is noted.
fn entry_below(near: &mut [usize], i: usize) -> usize
    requires { (i ≤ length near.old) × (0 < length near.old) }
    ensures { BelowIs near.old i near.new result }
{
    if 0 < i {
        return i - 1;
    }
    keep_oldest(near) - 1
}

// Notes the post and the starts below it, from the last entry down, so that no record needs to be counted first.
fn fill_near(
    journal: &[u8],
    mark: usize,
    len: usize,
    b: usize,
    h: usize,
    base: usize,
    post: usize,
    near: &mut [usize],
) -> usize
    requires mark_in_bounds { (mark ≤ length journal.now) × (b ≤ h) × (h ≤ length journal.now) × (len ≤ 2 ^ 32) × (base + mark < 2 ^ 64) }
    requires near_nonzero { (0 < length near.old) × FillFrom len (turned b h journal.now) mark base post }
    ensures { FilledIs len (turned b h journal.now) mark base near.new result }
{
    let mut i = near.len() - 1;
    near[i] = post;
    let mut e = post - base;
    // No for: each record tells where the next one ends.
    while 0 < e {
        e = record_start(journal, b, h, e);
        i = entry_below(near, i);
        near[i] = base + e;
    }
    i
}

// Notes the starts of the oldest records anew, if the entry after that of what is missing has a post that is known and reaches so far; else
// the list has no entry.
pub fn refill(
    journal: &[u8],
    mark: usize,
    len: usize,
    need: usize,
    b: usize,
    h: usize,
    base: usize,
    spread: usize,
    posts: &[usize],
    near: &mut [usize],
) -> usize
    requires mark_in_bounds { (mark ≤ length journal.now) × (b ≤ h) × (h ≤ length journal.now) × (len ≤ 2 ^ 32) × (base + mark < 2 ^ 64) × (need ≤ mark) }
    requires spread_nonzero { (0 < spread) × (0 < length posts.now) × (0 < length near.old) × Known len (turned b h journal.now) mark posts.now near.old (length near.old) base }
    ensures { FilledIs len (turned b h journal.now) mark base near.new result }
{
    let post = post_after(posts, spread, base + need);
    if post < base + need {
        return near.len();
    }
    if base + mark <= post {
        return near.len();
    }
    fill_near(journal, mark, len, b, h, base, post, near)
}
