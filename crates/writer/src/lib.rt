// The writing of a commit and of a release: one function for each block that is written, and the order in which those of a commit are.
#![tactic(auto)]

ghost use Rattle.std.specs.Prelude.{◌*◌, ◌+◌, ◌<◌, ◌≤◌, ◌≡◌, length, take};
ghost use Rattle.block.specs.Write.{written};
ghost use Rattle.model.specs.Blocks.{code_of, commit, content, fields_of, lines_of, mark};
ghost use Rattle.model.specs.Codec.{encode};
ghost use Rattle.model.specs.Log.{released};
ghost use Rattle.writer.specs.Blocks.{PutContents, Sourced, Writable, Wrote, action_in, commit_blocks, contents_by, head_of, line_bytes, lines_in, sheet_in, size_in};

// What a commit did to a sheet, by its number in a commit block.
#[derive(Clone, Copy, Default)]
pub enum Action {
    #[default]
    Add = 1,
    Change = 2,
    Delete = 3,
    Copy = 4,
}

impl Action {
    fn code(self) -> u8
        ensures { result ≡ code_of (action_in self) }
    {
        self as u8
    }
}

// A change as a commit block has it.
#[derive(Clone, Copy, Default)]
pub struct Line {
    pub sheet: u8,
    pub action: Action,
    pub block: u16,
    pub source: u8,
    pub revision: u16,
}

// The first 16 bytes of a block.
fn head_bytes(kind: u8, n: usize, r: usize, seat: u8, stamp: u32) -> [u8; 16]
    requires { (n < 65536) × (r < 65536) }
    ensures { result ≡ head_of kind n r seat stamp }
{
    let [n0, n1] = (n as u16).to_le_bytes();
    let [r0, r1] = (r as u16).to_le_bytes();
    let [t0, t1, t2, t3] = stamp.to_le_bytes();
    [kind, 0, n0, n1, r0, r1, seat, 0, t0, t1, t2, t3, 0, 0, 0, 0]
}

// Writes the first 16 bytes of a block.
fn put_head(d: &mut [u8], kind: u8, n: usize, r: usize, seat: u8, stamp: u32)
    requires { (length d.old ≡ 512) × ((n < 65536) × (r < 65536)) }
    ensures { d.new ≡ written 0 (head_of kind n r seat stamp) d.old }
{
    let head = head_bytes(kind, n, r, seat, stamp);
    d[..16].copy_from_slice(&head);
}

// A whole content block.
fn fill_content(d: &mut [u8], revision: usize, bytes: &[u8])
    requires { (length d.old ≡ 512) × ((revision < 65536) × (length bytes.now ≤ 480)) }
    ensures { d.new ≡ encode fields_of (content revision bytes.now) }
{
    let n = bytes.len();
    put_head(d, 2, n, revision, 0, 0);
    block::put_bytes(d, 16, bytes);
    block::clear(d, 16 + n, 508);
    block::seal(d);
}

// Writes a content block.
fn put_content(store: &mut [u8], block: usize, revision: usize, bytes: &[u8])
    requires { (512 * block + 512 ≤ length store.old) × ((revision < 65536) × (length bytes.now ≤ 480)) }
    ensures { store.new ≡ written (512 * block) (encode fields_of (content revision bytes.now)) store.old }
{
    let at = 512 * block;
    fill_content(&mut store[at..at + 512], revision, bytes);
}

// The 8 bytes of a line.
#[tactic(auto, unfolding(crate::specs::Blocks::line_bytes))]
fn line_bytes(l: Line) -> [u8; 8]
    ensures { result ≡ line_bytes l }
{
    let [b0, b1] = l.block.to_le_bytes();
    let [r0, r1] = l.revision.to_le_bytes();
    [l.sheet, l.action.code(), b0, b1, l.source, 0, r0, r1]
}

// Writes one line of a commit block.
#[tactic(auto, using(crate::proofs::Filling::part_written), unfolding(crate::specs::Blocks::line_bytes))]
fn put_line(d: &mut [u8], at: usize, l: Line)
    requires { at + 8 ≤ length d.old }
    ensures { d.new ≡ written at (line_bytes l) d.old }
{
    let line = line_bytes(l);
    d[at..at + 8].copy_from_slice(&line);
}

// The lines, in a commit block.
fn put_lines(d: &mut [u8], lines: &[Line])
    requires { (length d.old ≡ 512) × (length lines.now ≤ 32) }
    ensures { d.new ≡ written 16 (lines_of (lines_in lines.now)) d.old }
{
    for (i, l) in lines.iter().enumerate() {
        put_line(d, 16 + 8 * i, *l);
    }
}

// A whole commit block.
fn fill_commit(d: &mut [u8], revision: usize, seat: u8, stamp: u32, lines: &[Line])
    requires { (length d.old ≡ 512) × ((revision < 65536) × (length lines.now ≤ 32)) }
    ensures { d.new ≡ encode fields_of (commit revision seat stamp (lines_in lines.now)) }
{
    let n = lines.len();
    put_head(d, 3, n, revision, seat, stamp);
    put_lines(d, lines);
    block::clear(d, 16 + 8 * n, 508);
    block::seal(d);
}

// Writes a commit block.
fn put_commit_block(
    store: &mut [u8],
    block: usize,
    revision: usize,
    seat: u8,
    stamp: u32,
    lines: &[Line],
)
    requires { (512 * block + 512 ≤ length store.old) × ((revision < 65536) × (length lines.now ≤ 32)) }
    ensures { store.new ≡ written (512 * block) (encode fields_of (commit revision seat stamp (lines_in lines.now))) store.old }
{
    let at = 512 * block;
    fill_commit(&mut store[at..at + 512], revision, seat, stamp, lines);
}

// A whole release block.
fn fill_release(d: &mut [u8], revision: usize, seat: u8, stamp: u32)
    requires { (length d.old ≡ 512) × (revision < 65536) }
    ensures { d.new ≡ encode fields_of (mark (released revision seat stamp)) }
{
    put_head(d, 6, 0, revision, seat, stamp);
    block::clear(d, 16, 508);
    block::seal(d);
}

// Writes a release block.
pub fn put_release(store: &mut [u8], block: usize, revision: usize, seat: u8, stamp: u32)
    requires { (512 * block + 512 ≤ length store.old) × (revision < 65536) }
    ensures { store.new ≡ written (512 * block) (encode fields_of (mark (released revision seat stamp))) store.old }
{
    let at = 512 * block;
    fill_release(&mut store[at..at + 512], revision, seat, stamp);
}

// Writes the content block of a sheet whose bytes stand in its entry of the working copy.
fn put_entry(store: &mut [u8], block: usize, revision: usize, copy: &[u8], sheet: usize)
    requires { (512 * block + 512 ≤ length store.old) × ((revision < 65536) × ((length copy.now ≡ 16896) × ((sheet < 32) × (size_in copy.now sheet ≤ 480)))) }
    ensures { store.new ≡ written (512 * block) (encode fields_of (content revision (sheet_in copy.now sheet))) store.old }
{
    let at = 512 * (sheet + 1);
    let n = usize::from(block::get16(copy, at + 2));
    let start = at + 16;
    put_content(store, block, revision, &copy[start..start + n]);
}

// Where a writing stood when it stopped: the next block, and how many block writes were left to it.
#[derive(Clone, Copy)]
struct Cut {
    next: usize,
    left: usize,
}

// Writes the content blocks of a commit, from block `used` on, a block for each line that points to the next one; n at most.
fn put_contents(
    store: &mut [u8],
    n: usize,
    used: usize,
    revision: usize,
    lines: &[Line],
    copy: &[u8],
) -> Cut
    requires { (revision < 65536) × (Sourced copy.now lines.now × (512 * (used + length (contents_by (sheet_in copy.now) used (lines_in lines.now))) ≤ length store.old)) }
    ensures { PutContents store.old store.new n used revision (take n (contents_by (sheet_in copy.now) used (lines_in lines.now))) result.next result.left }
{
    let mut next = used;
    let mut left = n;
    for l in lines {
        if usize::from(l.block) == next {
            if left == 0 {
                return Cut { next, left };
            }
            put_entry(store, next, revision, copy, usize::from(l.sheet));
            next += 1;
            left -= 1;
        }
    }
    Cut { next, left }
}

// Writes a commit from block `used` on: its content blocks in the order of its lines, and then its commit block. It stops after n block writes. The block that
// follows the last one written.
pub fn write_some(
    store: &mut [u8],
    n: usize,
    used: usize,
    revision: usize,
    seat: u8,
    stamp: u32,
    lines: &[Line],
    copy: &[u8],
) -> usize
    requires { Writable store.old used revision lines.now copy.now }
    ensures { Wrote store.old store.new used result (take n (commit_blocks (sheet_in copy.now) used revision seat stamp (lines_in lines.now))) }
{
    let Cut { next, left } = put_contents(store, n, used, revision, lines, copy);
    if left == 0 {
        return next;
    }
    put_commit_block(store, next, revision, seat, stamp, lines);
    next + 1
}
