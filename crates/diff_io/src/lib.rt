// Two uploads compared on standard output, through fixed buffers. What a read yields and what becomes of a write is outside any contract. What a part
// hands to a write is promised, and so is that what came stands behind what was unread; that all parts are a run of crate comparing over what was read is
// what the loop keeps (proofs/Kept). What is known is written before more is read, and more is read of an upload only where its next answer is not there.
// A read or a write that fails ends the comparison.
#![tactic(auto)]

mod command;

ghost use Rattle.std.specs.Prelude.{◌≡◌, true, ◌-◌, ◌≤◌, length, take, IfOk};
ghost use Rattle.base.specs.Parts.{part};
ghost use Rattle.reading.specs.Reading.{limit};
ghost use Rattle.comparing.specs.Call.{compared_of, Within, longest_turn, wants_left, wants_right};
ghost use Rattle.diff_io.specs.State.{Sound, Short, Fills, Feeds, found_by, ended_by};

use comparing::{Compared, Counts, Unread, Wants, compare_in};
use program::{Asked, Console, Failed, Input, print, read_some};

// How many bytes each block has, and the buffer of the text.
const ROOM: usize = 65536;

// What a comparison found, once all of its text is written.
#[derive(Clone, Copy)]
enum Found {
    // The text names no difference.
    Same,
    // .. one at least.
    Other,
}

// Why there is no such answer.
#[derive(Clone, Copy)]
enum Stopped {
    // A read or a write failed. The cause is told by then.
    Failed(Failed),
    // There are more pairs than can be counted.
    Uncounted,
}

impl From<Failed> for Stopped {
    fn from(failed: Failed) -> Stopped {
        Stopped::Failed(failed)
    }
}

// Where the unread bytes of an upload stand in its block, and whether nothing comes behind them.
#[derive(Clone, Copy)]
struct Fed {
    from: usize,
    to: usize,
    ends: bool,
}

// The unread bytes go to the front of their block, by way of a few places of their own. Answers how many they are.
fn keep(block: &mut [u8], from: usize, to: usize) -> usize
    requires { Short (length block.old) from to }
    ensures { (take (to - from) block.new ≡ part block.old from (to - from)) × (result ≡ to - from) }
{
    let count = to - from;
    block.copy_within(from..to, 0);
    count
}

// One read, behind the unread bytes of a block.
fn refill(
    console: &Console<'_>,
    input: &mut Input<'_>,
    block: &mut [u8],
    from: usize,
    to: usize,
) -> Result<Fed, Failed>
    requires { Short (length block.old) from to }
    ensures { IfOk result (λ fed. Fills block.old from to block.new fed) }
{
    let kept = keep(block, from, to);
    let count = read_some(console, input, &mut block[kept..])?;
    Ok(Fed {
        from: 0,
        to: kept + count,
        ends: count == 0,
    })
}

// .. where it is asked for.
fn feed(
    console: &Console<'_>,
    is_wanted: bool,
    input: &mut Input<'_>,
    block: &mut [u8],
    fed: Fed,
) -> Result<Fed, Failed>
    requires { (Sound (length block.old) fed.from fed.to) × (is_wanted ≡ true → Short (length block.old) fed.from fed.to) }
    ensures { IfOk result (λ next. Feeds is_wanted block.old fed.from fed.to fed.ends block.new next) }
{
    if is_wanted {
        return refill(console, input, block, fed.from, fed.to);
    }
    Ok(fed)
}

// One call of the comparison, and a write of what it wrote: the buffer has that whatever becomes of the write.
fn compare_part(
    console: &Console<'_>,
    left: Unread<'_>,
    right: Unread<'_>,
    counts: Counts,
    out: &mut [u8],
) -> Result<Compared, Failed>
    ensures text { out.new ≡ (compared_of left.entry.bytes.now left.entry.ends right.entry.bytes.now right.entry.ends counts.agree counts.differ out.old).1 }
    ensures ok { IfOk result (λ compared. ((compared, out.new) ≡ compared_of left.entry.bytes.now left.entry.ends right.entry.bytes.now right.entry.ends counts.agree counts.differ out.old) × Within (length left.entry.bytes.now) (length right.entry.bytes.now) (length out.old) compared) }
{
    let compared = compare_in(left, right, counts, out);
    print(console, &out[..compared.written])?;
    Ok(compared)
}

fn is_left(wants: Wants) -> bool
    ensures { result ≡ wants_left wants }
{
    matches!(wants, Wants::Left)
}

fn is_right(wants: Wants) -> bool
    ensures { result ≡ wants_right wants }
{
    matches!(wants, Wants::Right)
}

// What a whole text says that names so many differences.
fn found_by(differ: u64) -> Found
    ensures { result ≡ found_by differ }
{
    if differ == 0 {
        return Found::Same;
    }
    Found::Other
}

// How a comparison ended that goes no further: it asks neither for more bytes nor for room.
fn ended_by(wants: Wants, differ: u64) -> Option<Result<Found, Stopped>>
    ensures { result ≡ ended_by wants differ }
{
    match wants {
        Wants::Left | Wants::Right | Wants::Room => None,
        Wants::Nothing => Some(Ok(found_by(differ))),
        Wants::Refused(_) => Some(Err(Stopped::Uncounted)),
    }
}

// Reads both uploads to their ends, each into a block of its own.
fn compare_blocks(
    console: &Console<'_>,
    left_input: &mut Input<'_>,
    right_input: &mut Input<'_>,
    left: &mut [u8],
    right: &mut [u8],
    out: &mut [u8],
) -> Result<Found, Stopped>
    requires { ((limit ≤ length left.old) × (limit ≤ length right.old)) × (longest_turn ≤ length out.old) }
{
    let mut l = Fed {
        from: 0,
        to: 0,
        ends: false,
    };
    let mut r = l;
    let mut counts = Counts {
        agree: 0,
        differ: 0,
    };
    for _ in 0..u64::MAX {
        let compared = compare_part(
            console,
            Unread {
                bytes: &left[l.from..l.to],
                ends: l.ends,
            },
            Unread {
                bytes: &right[r.from..r.to],
                ends: r.ends,
            },
            counts,
            out,
        )?;
        counts = compared.counts;
        let wants = compared.wants;
        if let Some(ended) = ended_by(wants, counts.differ) {
            return ended;
        }
        l.from += compared.left;
        r.from += compared.right;
        l = feed(console, is_left(wants), left_input, left, l)?;
        r = feed(console, is_right(wants), right_input, right, r)?;
    }
    Err(Stopped::Uncounted)
}

// Compares what two inputs yield.
fn compare_inputs(
    console: &Console<'_>,
    left_input: &mut Input<'_>,
    right_input: &mut Input<'_>,
) -> Result<Found, Stopped> {
    let mut left = [0u8; ROOM];
    let mut right = [0u8; ROOM];
    let mut out = [0u8; ROOM];
    compare_blocks(
        console,
        left_input,
        right_input,
        &mut left,
        &mut right,
        &mut out,
    )
}

// Compares two files. Answers the status of the program diff.
pub fn diff_files(rt: &HostRuntime, left: &[u8], right: &[u8]) -> u8
    ensures { result ≤ 2 }
{
    let console = Console { rt, name: b"diff" };
    command::compare_both(&console, Asked::File(left), Asked::File(right))
}

// The program diff. Answers its status: 0 where the uploads have no difference, 1 where they have one, 2 for anything else.
pub fn crsf_diff(rt: &HostRuntime) -> u8
    ensures { result ≤ 2 }
{
    command::command(&Console { rt, name: b"diff" })
}
