// The entry of the program where.
#![tactic(auto)]

ghost use Rattle.std.specs.Prelude.{◌≤◌};

// Answers its status, as crsf_list does.
pub fn crsf_where(rt: &HostRuntime) -> u8
    ensures { result ≤ 2 }
{
    listing_io::list_where(rt)
}
