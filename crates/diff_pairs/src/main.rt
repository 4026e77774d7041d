// The program diff on several stored pairs of files, one after another: NAME.left beside NAME.right, behind a line with the name. Then single calls of
// the comparison, at its edges.
#![tactic(auto)]

mod edges;

use base::{copy_in, part_of};
use diff_io::diff_files;
use program::{Console, print};

const PAIRS: [&str; 14] = [
    "equal",
    "empty",
    "one_empty",
    "beginning",
    "lost",
    "payload",
    "values",
    "tails",
    "tail_bytes",
    "tail_first",
    "same_refusals",
    "kinds",
    "swapped",
    "blocks",
];

// No name is longer, with what stands behind it.
const LONGEST: usize = 32;

// A name and what stands behind it, at the front of the buffer.
fn joined<'a>(buffer: &'a mut [u8; LONGEST], name: &str, ending: &str) -> &'a [u8] {
    let (name, ending) = (name.as_bytes(), ending.as_bytes());
    copy_in(buffer, 0, name, name.len());
    copy_in(buffer, name.len(), ending, ending.len());
    part_of(buffer, 0, name.len() + ending.len())
}

// The program on NAME.left and NAME.right, behind a line with the name.
fn compare_pair(console: &Console<'_>, name: &str) {
    let (mut title, mut left, mut right) = ([0; LONGEST], [0; LONGEST], [0; LONGEST]);
    let _ = print(console, joined(&mut title, name, ":\n"));
    diff_files(
        console.rt,
        joined(&mut left, name, ".left"),
        joined(&mut right, name, ".right"),
    );
}

fn main(rt: HostRuntime) {
    let console = Console {
        rt: &rt,
        name: b"diff_pairs",
    };
    for name in PAIRS {
        compare_pair(&console, name);
    }
    edges::run(&console);
}
