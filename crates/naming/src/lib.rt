// Whether an appointment names a party: what the viewer and waiting ask at each position of a list.
#![tactic(auto)]

ghost use Rattle.std.specs.Prelude.{◌≡◌};
ghost use Rattle.appointments.specs.Appointments.{appt, named};

// Whether the appointment of these two ends names the party.
pub fn named(first: u16, second: u16, party: u16) -> bool
    ensures { result ≡ named party (appt first second) }
{
    if first == party {
        return true;
    }
    second == party
}
