// Replays recorded answers of the Rust original: standard input is a sample that oracle/record wrote, and each answer in it is compared with this
// port's. Writes how many agree and how many differ. What stands in the sample is said in oracle/driver/src/record.rs.
#![tactic(auto)]

mod case;
mod fields;
mod framing;
mod queries;
mod recorded;
mod series_cases;

use case::{Case, Cases};
use channels::RcChannelsPacked;
use host_state::SIZE;
use positions::gps::Gps;
use positions::gps_extended::GpsExtended;
use program::heedless::Heedless;
use records::baro_altitude::BaroAltitude;
use records::battery::Battery;
use records::link_statistics::LinkStatistics;
use series::rpm::Rpm;
use series::temp::Temp;
use series::voltages::Voltages;
use std::{fmt, io};

// How many bytes a page of the sample has.
const PAGE: usize = 4096;

// How many cases agree, and how many differ.
#[derive(Clone, Copy)]
struct Count {
    agree: u64,
    differ: u64,
}

const NONE: Count = Count {
    agree: 0,
    differ: 0,
};

impl Count {
    fn add(&mut self, agrees: bool) {
        if agrees {
            self.agree = self.agree.wrapping_add(1);
        } else {
            self.differ = self.differ.wrapping_add(1);
        }
    }
}

impl fmt::Display for Count {
    fn fmt<W: fmt::Write>(&self, f: &mut fmt::Formatter<W>) -> fmt::Result {
        write!(f, "{} agree, {} differ\n", self.agree, self.differ)
    }
}

#[derive(Clone, Copy)]
struct Counts {
    framing: Count,
    queries: Count,
    read: Count,
    written: Count,
}

impl Counts {
    // Which of them a kind of case goes to.
    fn of(&mut self, kind: u8) -> &mut Count {
        match kind {
            0..=2 => &mut self.framing,
            3..=9 => &mut self.queries,
            10..=19 => &mut self.read,
            _ => &mut self.written,
        }
    }
}

fn agrees(case: &Case<'_>, state: &mut [u8; SIZE]) -> bool {
    match case.kind {
        1 => host_state::reset(state).is_ok(),
        2 => framing::calls(state, case),
        3..=7 => queries::answers(case),
        10 => recorded::reads::<LinkStatistics>(case),
        11 => recorded::reads::<RcChannelsPacked>(case),
        12 => recorded::reads::<Gps>(case),
        13 => recorded::reads::<GpsExtended>(case),
        14 => recorded::reads::<Battery>(case),
        15 => recorded::reads::<BaroAltitude>(case),
        16 => series_cases::reads::<Rpm>(case),
        17 => series_cases::reads::<Temp>(case),
        18 => series_cases::reads::<Voltages>(case),
        20 => recorded::writes::<LinkStatistics>(case),
        21 => recorded::writes::<RcChannelsPacked>(case),
        22 => recorded::writes::<Gps>(case),
        23 => recorded::writes::<GpsExtended>(case),
        24 => recorded::writes::<Battery>(case),
        25 => recorded::writes::<BaroAltitude>(case),
        26 => series_cases::writes::<Rpm>(case),
        27 => series_cases::writes::<Temp>(case),
        28 => series_cases::writes::<Voltages>(case),
        _ => false,
    }
}

fn replay(page: &[u8], state: &mut [u8; SIZE], counts: &mut Counts) {
    for case in Cases(page) {
        let agrees = agrees(&case, state);
        counts.of(case.kind).add(agrees);
    }
}

// The sample page by page: a page that is not full is the last.
fn replay_all(rt: &Heedless) -> Counts {
    let mut state = [0u8; SIZE];
    let mut counts = Counts {
        framing: NONE,
        queries: NONE,
        read: NONE,
        written: NONE,
    };
    let mut page = [0u8; PAGE];
    for _ in 0..u64::MAX {
        let len = rt.fill(&mut page);
        replay(&page[..len], &mut state, &mut counts);
        if len < PAGE {
            break;
        }
    }
    counts
}

fn report(rt: &impl Print, counts: Counts) -> io::Result<()> {
    print!(rt; "framing {}", counts.framing)?;
    print!(rt;
        "types, addresses, check bytes, altitudes {}",
        counts.queries
    )?;
    print!(rt; "records read {}", counts.read)?;
    print!(rt; "records written {}", counts.written)
}

fn main(rt: HostRuntime) {
    let rt = Heedless(rt);
    let _ = report(&rt, replay_all(&rt));
}
