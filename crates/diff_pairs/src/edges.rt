// Single calls of the comparison at the edges of its room, its counts and its inputs: what each shows, and its text.
use base::part_of;
use comparing::{Compared, Counts, Unread, Wants, compare_in};
use lines::line::put_position;
use program::{Console, print};
use refusals::row_of;

fn print_wants(console: &Console<'_>, wants: Wants) {
    let word = match wants {
        Wants::Left => b"left ".as_slice(),
        Wants::Right => b"right ".as_slice(),
        Wants::Room => b"room ".as_slice(),
        Wants::Nothing => b"nothing ".as_slice(),
        Wants::Refused(_) => b"refused ".as_slice(),
    };
    let _ = print(console, word);
    if let Wants::Refused(refusal) = wants {
        print_number(console, u64::from(row_of(refusal).number));
    }
}

// A number, and a space behind it.
fn print_number(console: &Console<'_>, n: u64) {
    let mut line = [0u8; 32];
    let end = put_position(n, &mut line, 0);
    let _ = print(console, part_of(&line, 0, end));
}

// What is asked for; how many bytes of each side are done with; the counts; how many bytes were written, and these.
fn show(console: &Console<'_>, compared: Compared, out: &[u8]) {
    print_wants(console, compared.wants);
    for n in [
        compared.left as u64,
        compared.right as u64,
        compared.counts.agree,
        compared.counts.differ,
        compared.written as u64,
    ] {
        print_number(console, n);
    }
    let _ = print(console, b"bytes\n");
    let _ = print(console, part_of(out, 0, compared.written));
}

// An upload that ends with these bytes, and one that goes on behind them.
fn whole(bytes: &[u8]) -> Unread<'_> {
    Unread { bytes, ends: true }
}

fn begun(bytes: &[u8]) -> Unread<'_> {
    Unread { bytes, ends: false }
}

// Both sides as they are, behind some counts, into a buffer.
fn into(
    console: &Console<'_>,
    left: Unread<'_>,
    right: Unread<'_>,
    agree: u64,
    differ: u64,
    out: &mut [u8],
) {
    let compared = compare_in(left, right, Counts { agree, differ }, out);
    show(console, compared, out);
}

// .. of 128 bytes.
fn call(console: &Console<'_>, left: Unread<'_>, right: Unread<'_>, agree: u64, differ: u64) {
    let mut out = [0u8; 128];
    into(console, left, right, agree, differ, &mut out);
}

// .. of as many as the longest lines have, for nothing on both sides.
fn close(console: &Console<'_>, agree: u64, differ: u64) {
    let mut out = [0u8; 95];
    into(console, whole(b""), whole(b""), agree, differ, &mut out);
}

// .. of one byte less.
fn close_without_room(console: &Console<'_>) {
    let mut out = [0u8; 94];
    into(console, whole(b""), whole(b""), 0, 0, &mut out);
}

// Room: for the longest lines, one byte less, and for some lines of several.
fn rooms(console: &Console<'_>) {
    let _ = print(console, b"rooms:\n");
    close(console, 0, 0);
    close_without_room(console);
    call(
        console,
        whole(b"\xC8\x02\x00\x00"),
        whole(b"\xC8\x02\x00\x01"),
        0,
        0,
    );
}

// More of a side is asked for, of the left one first, unless it has ended; nothing is done with before both answers are there.
fn sides(console: &Console<'_>) {
    let _ = print(console, b"sides:\n");
    call(console, begun(b""), begun(b""), 0, 0);
    call(console, whole(b""), begun(b""), 0, 0);
    call(console, begun(b"\xC8\x02\x00"), whole(b"\x55"), 0, 0);
    call(console, whole(b"\x55"), begun(b"\xC8\x02\x00"), 0, 0);
    call(console, begun(b"\x55\xC8"), begun(b"\x55\xC8"), 0, 0);
}

// Counts: the last that can be counted, the first that can't, and sums that no number holds.
fn counts(console: &Console<'_>) {
    let _ = print(console, b"counts:\n");
    close(console, u64::MAX - 1, 0);
    close(console, 0, u64::MAX - 1);
    close(console, u64::MAX, 0);
    close(console, u64::MAX, u64::MAX);
    call(console, whole(b"\x55"), whole(b""), u64::MAX - 2, 0);
    call(console, whole(b"\x55"), whole(b""), u64::MAX - 1, 0);
    call(console, whole(b""), whole(b"\x55"), 1, u64::MAX - 2);
}

pub(crate) fn run(console: &Console<'_>) {
    rooms(console);
    sides(console);
    counts(console);
}
