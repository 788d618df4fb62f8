// Which input is served next ("Priority Resolver" in the data sheet of the 8259A).
ghost use Rattle.std.specs.Prelude.{◌≡◌, ◌<◌, IfSome};
ghost use Rattle.dev_pic.specs.Winner.{input_at as input_at_of, IsFirstPlace, winner_of, highest_of};

/// Returns the input at `place` of the priority order; place 0 has the highest priority.
fn input_at(lowest: u8, place: u8) -> u8
    requires { place < 8 }
    ensures { result ≡ input_at_of lowest place }
{
    lowest.wrapping_add(1 + place) % 8
}

/// Returns the first place of the priority order whose input is in `inputs`, or 8 if none is.
#[tactic(auto, using(crate::proofs::WinnerLaws::is_first))]
fn first_place(lowest: u8, inputs: u8) -> u8
    ensures { IsFirstPlace lowest inputs result }
{
    inputs.rotate_right(u32::from(lowest) + 1).trailing_zeros() as u8
}

/// Returns the first of `requests`, in priority order, if it comes before every input of `served`.
pub(crate) fn first_ready(lowest: u8, requests: u8, served: u8) -> Option<u8>
    ensures winner { result ≡ winner_of lowest requests served }
    ensures input { IfSome result (λ winner. winner < 8) }
{
    let requested = first_place(lowest, requests);
    if requested < first_place(lowest, served) {
        Some(input_at(lowest, requested))
    } else {
        None
    }
}

/// Returns the input of highest priority in `inputs`, if there is one.
pub(crate) fn highest(lowest: u8, inputs: u8) -> Option<u8>
    ensures highest { result ≡ highest_of lowest inputs }
    ensures input { IfSome result (λ input. input < 8) }
{
    let first = first_place(lowest, inputs);
    if first < 8 {
        Some(input_at(lowest, first))
    } else {
        None
    }
}
