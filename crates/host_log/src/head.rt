// The state as bytes: a head of eleven, and the places.
ghost use Rattle.std.specs.Prelude.{◌≡◌, ◌++◌, ◌≤◌, length, drop};
ghost use Rattle.host_log.specs.State.{places_at, bytes_of, reader_of, stage_of, head_number, head_of, reader_in};

use base::narrow;
use log_reader::{Reader, Wanted};
use numbers::{get_u32, put_u32};
use refusals::Refusal;
use stream::LIMIT;

// Where the places stand.
pub const PLACES: usize = 11;

pub const SIZE: usize = PLACES + LIMIT;

// The head as numbers, the bytes that a host keeps: so a stage is a number here, and what it does not use is 0.
#[derive(Clone, Copy)]
struct Head {
    // 0 in the first number, 1 in the seconds of an entry, 2 in the length of its frame, 3 in the frame; 4 ended, 5 refused with 9, 6 with 10
    stage: u8,
    // of a number, the groups that have come; of a frame, the bytes held
    count: u8,
    // the frame's length
    size: u8,
    // of a number, so far
    value: u32,
    // of the entry
    seconds: u32,
}

fn number(wanted: Wanted, value: u32, groups: u8) -> Head
    ensures { result ≡ head_number wanted value groups }
{
    let (stage, seconds) = match wanted {
        Wanted::Version => (0, 0),
        Wanted::Seconds => (1, 0),
        Wanted::Size(seconds) => (2, seconds),
    };
    Head {
        stage,
        count: groups,
        size: 0,
        value,
        seconds,
    }
}

fn stage_of(refusal: Refusal) -> u8
    ensures { result ≡ stage_of refusal }
{
    match refusal {
        Refusal::InvalidLog => 5,
        _ => 6,
    }
}

fn bare(stage: u8) -> Head
    ensures { result ≡ record { stage = stage; count = 0; size = 0; value = 0; seconds = 0 } }
{
    Head {
        stage,
        count: 0,
        size: 0,
        value: 0,
        seconds: 0,
    }
}

fn head_of(reader: Reader) -> Head
    ensures { result ≡ head_of reader }
{
    match reader {
        Reader::Number {
            wanted,
            value,
            groups,
        } => number(wanted, value, groups),
        Reader::Frame {
            seconds,
            size,
            held,
        } => Head {
            stage: 3,
            count: narrow(held),
            size: narrow(size),
            value: 0,
            seconds,
        },
        Reader::Refused(refusal) => bare(stage_of(refusal)),
        Reader::Ended => bare(4),
    }
}

fn put_head(state: &mut [u8], head: Head)
    requires { places_at ≤ length state.old }
    ensures { state.new ≡ bytes_of head ++ drop places_at state.old }
{
    state[0] = head.stage;
    state[1] = head.count;
    state[2] = head.size;
    put_u32(state, 3, head.value);
    put_u32(state, 7, head.seconds);
}

// The head of a reader; the places stay.
pub(crate) fn put_reader(state: &mut [u8], reader: Reader)
    requires { places_at ≤ length state.old }
    ensures { state.new ≡ bytes_of (head_of reader) ++ drop places_at state.old }
{
    put_head(state, head_of(reader));
}

fn begun(wanted: Wanted, value: u32, groups: u8) -> Reader
    ensures { result ≡ Reader.Number wanted value groups }
{
    Reader::Number {
        wanted,
        value,
        groups,
    }
}

fn reader_of(head: Head) -> Reader
    ensures { result ≡ reader_of head }
{
    let Head {
        stage,
        count,
        size,
        value,
        seconds,
    } = head;
    match stage {
        0 => begun(Wanted::Version, value, count),
        1 => begun(Wanted::Seconds, value, count),
        2 => begun(Wanted::Size(seconds), value, count),
        3 => Reader::Frame {
            seconds,
            size: usize::from(size),
            held: usize::from(count),
        },
        4 => Reader::Ended,
        5 => Reader::Refused(Refusal::InvalidLog),
        _ => Reader::Refused(Refusal::InvalidFrame),
    }
}

// The reader that a head stands for.
#[tactic(auto, unfolding(crate::specs::State::head_in))]
pub(crate) fn reader_in(state: &[u8]) -> Reader
    requires { places_at ≤ length state.now }
    ensures { result ≡ reader_in state.now }
{
    reader_of(Head {
        stage: state[0],
        count: state[1],
        size: state[2],
        value: get_u32(state, 3),
        seconds: get_u32(state, 7),
    })
}
