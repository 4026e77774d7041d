// The series: RPM, temperatures, voltages. Read, the id and the count stand in the answer, and each field is a value; written, the id is the first
// field.
use crate::case::{Case, has_number};
use crate::fields::{Fields, PLACES};
use crate::recorded::is_written;
use frames::{write_packet_to_buffer, write_values_to_buffer};
use layout::CrsfPacket;
use refusals::Refusal;
use series::rpm::Rpm;
use series::temp::Temp;
use series::voltages::Voltages;
use std::array;

pub trait Series: CrsfPacket + PartialEq {
    // A record of these values, whether or not there can be so many. The places past them are 0, which is what a lacking field reads as.
    fn of(id: u8, f: Fields<'_>) -> Self;

    // One that is made of as many values as there are places for.
    fn made_of(id: u8, f: Fields<'_>) -> Result<Self, Refusal>;

    // A frame straight from them.
    fn write_values(buffer: &mut [u8], dest: u8, id: u8, f: Fields<'_>) -> Result<usize, Refusal>;
}

impl Series for Rpm {
    fn of(id: u8, f: Fields<'_>) -> Rpm {
        Rpm {
            rpm_source_id: id,
            rpm_values: array::from_fn(|i| f.i32(i)),
            count: f.count(),
        }
    }

    fn made_of(id: u8, f: Fields<'_>) -> Result<Rpm, Refusal> {
        let values: [i32; PLACES] = array::from_fn(|i| f.i32(i));
        Rpm::new(id, &values[..f.count().min(PLACES)])
    }

    fn write_values(buffer: &mut [u8], dest: u8, id: u8, f: Fields<'_>) -> Result<usize, Refusal> {
        let values: [i32; PLACES] = array::from_fn(|i| f.i32(i));
        write_values_to_buffer::<Rpm>(buffer, dest, id, &values[..f.count().min(PLACES)])
    }
}

impl Series for Temp {
    fn of(id: u8, f: Fields<'_>) -> Temp {
        Temp {
            temp_source_id: id,
            temperatures: array::from_fn(|i| f.i16(i)),
            count: f.count(),
        }
    }

    fn made_of(id: u8, f: Fields<'_>) -> Result<Temp, Refusal> {
        let values: [i16; PLACES] = array::from_fn(|i| f.i16(i));
        Temp::new(id, &values[..f.count().min(PLACES)])
    }

    fn write_values(buffer: &mut [u8], dest: u8, id: u8, f: Fields<'_>) -> Result<usize, Refusal> {
        let values: [i16; PLACES] = array::from_fn(|i| f.i16(i));
        write_values_to_buffer::<Temp>(buffer, dest, id, &values[..f.count().min(PLACES)])
    }
}

impl Series for Voltages {
    fn of(id: u8, f: Fields<'_>) -> Voltages {
        Voltages {
            voltage_source_id: id,
            voltage_values: array::from_fn(|i| f.u16(i)),
            count: f.count(),
        }
    }

    fn made_of(id: u8, f: Fields<'_>) -> Result<Voltages, Refusal> {
        let values: [u16; PLACES] = array::from_fn(|i| f.u16(i));
        Voltages::new(id, &values[..f.count().min(PLACES)])
    }

    fn write_values(buffer: &mut [u8], dest: u8, id: u8, f: Fields<'_>) -> Result<usize, Refusal> {
        let values: [u16; PLACES] = array::from_fn(|i| f.u16(i));
        write_values_to_buffer::<Voltages>(buffer, dest, id, &values[..f.count().min(PLACES)])
    }
}

// With a refusal the id and the count are 0, and there are no fields. There are as many fields as values.
pub fn reads<S: Series>(case: &Case<'_>) -> bool {
    let e = case.expected;
    let f = Fields(case.c);
    let (number, record) = match S::from_bytes(case.a) {
        Ok(record) => (e.number == 0, record),
        Err(refusal) => (has_number(refusal, e.number), S::of(0, Fields(&[]))),
    };
    number && record == S::of(e.first, f) && f.count() == usize::from(e.len)
}

// A series goes from its values straight to a frame, and, where a record can be made of them, by way of that.
pub fn writes<S: Series>(case: &Case<'_>) -> bool {
    let id = Fields(case.a).u8(0);
    let f = Fields(case.a.get(4..).unwrap_or(&[]));
    is_written(case, |buffer, dest| S::write_values(buffer, dest, id, f))
        && is_written(case, |buffer, dest| match S::made_of(id, f) {
            Ok(record) => write_packet_to_buffer(buffer, dest, record),
            Err(_) => S::write_values(buffer, dest, id, f),
        })
}
