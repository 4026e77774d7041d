// Altitudes as the records carry them, and in the unit that each record is kept in: GPS altitude in metres, barometric altitude in decimetres.
#![tactic(auto)]

ghost use Rattle.std.specs.Prelude.{◌≡◌, ◌≤◌};
ghost use Rattle.altitude.specs.Altitude.{metres_of, decimetres_of, pack_of, pack_raised};

#[derive(Clone, Copy, PartialEq, Eq)]
pub struct Metres(pub i32);

#[derive(Clone, Copy, PartialEq, Eq)]
pub struct Decimetres(pub i32);

// Each way of carrying an altitude is a u16, so a name says which one is read or made, and no `From`.

// GPS: whole metres with 1000 added.
pub fn gps_altitude(raw: u16) -> Metres
    ensures { result.0 ≡ metres_of raw }
{
    Metres(i32::from(raw) - 1000)
}

// Barometric: top bit 0, decimetres with 10000 added; top bit 1, whole metres.
#[tactic(auto, unfolding(crate::specs::Altitude::decimetres_of))]
pub fn baro_altitude(raw: u16) -> Decimetres
    ensures { result.0 ≡ decimetres_of raw }
{
    if raw < 0x8000 {
        Decimetres(i32::from(raw) - 10000)
    } else {
        let metres = i32::from(raw - 0x8000);
        Decimetres(metres * 10)
    }
}

// Decimetres with 10000 added, from -10000 to 327655, as the record carries them.
#[tactic(auto, unfolding(crate::specs::Altitude::pack_raised))]
fn pack_raised(raised: u32) -> u16
    requires { raised ≤ 337655 }
    ensures { result ≡ pack_raised raised }
{
    if raised < 0x8000 {
        raised as u16
    } else {
        let decimetres = raised - 10000;
        ((decimetres + 5) / 10) as u16 + 0x8000
    }
}

// Barometric decimetres as the record carries them: above 2276.7 m the nearest metre, and the ends of the range outside it.
#[tactic(auto, unfolding(crate::specs::Altitude::pack_of, crate::specs::Altitude::pack_raised))]
pub fn pack_altitude(altitude: Decimetres) -> u16
    ensures { result ≡ pack_of altitude.0 }
{
    let d = altitude.0;
    if d < -10000 {
        return 0;
    }
    if d > 327655 {
        return 0xFFFE;
    }
    pack_raised((d + 10000) as u32)
}
