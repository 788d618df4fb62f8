// A device that shows the pass which its stored closures receive.
ghost use Rattle.std.specs.Prelude.{◌≡◌, ◌<◌, pos, length, [], ◌∷◌, nat_lt, if◌then◌else◌, Ok, Err};

use arrayvec::ArrayVec;
use std::test::Fail;
use vms_hooks::{HookFault, Hooked, Pass, load_by, save_by};
use vms_kinds::DevCells;

/// A device that saves its number below 10 and then the three numbers of the pass.
///
/// If there are fewer cells than the moment, it restores the set. Otherwise the rule with the
/// level's number fails.
#[derive(Clone, Copy, Debug, PartialEq, Eq)]
struct Echo {
    digit: u8,
}

impl Hooked for Echo {
    ghost can_save = { λ numbers echo. echo.digit < 10 };

    ghost can_restore = { λ numbers cells. length cells < 97 };

    ghost saves_as = { λ numbers echo cells. cells
        ≡ pos echo.digit ∷ pos numbers.level ∷ pos numbers.set ∷ pos numbers.moment ∷ [] };

    ghost restores_to = { λ numbers cells outcome. outcome
        ≡ (if nat_lt (length cells) numbers.moment
        then Ok (record { digit = numbers.set })
        else Err (record { rule = numbers.level })) };
}

fn saved(digit: u8, level: u8, set: u8, moment: u64) -> DevCells
    requires { digit < 10 }
    ensures { result.items ≡ pos digit ∷ pos level ∷ pos set ∷ pos moment ∷ [] }
{
    save_by(cells_of, echo_of, level, set, moment, &Echo { digit })
}

fn loaded(cells: &DevCells, level: u8, set: u8, moment: u64) -> Result<Echo, HookFault>
    requires { length cells.now.items < 97 }
{
    load_by(cells_of, echo_of, level, set, moment, cells)
}

fn cells_of(pass: &Pass, echo: &Echo) -> DevCells
    ensures { result.items
        ≡ pos echo.now.digit ∷ pos pass.now.level ∷ pos pass.now.set ∷ pos pass.now.moment ∷ [] }
{
    let mut cells = ArrayVec::new();
    let _fits = cells.try_extend_from_slice(&[
        i128::from(echo.digit),
        i128::from(pass.level()),
        i128::from(pass.set()),
        i128::from(pass.now()),
    ]);
    cells
}

fn echo_of(pass: &Pass, cells: &DevCells) -> Result<Echo, HookFault>
    ensures { result
        ≡ (if nat_lt (length cells.now.items) pass.now.moment
        then Ok (record { digit = pass.now.set })
        else Err (record { rule = pass.now.level })) }
{
    if (cells.len() as u64) < pass.now() {
        Ok(Echo { digit: pass.set() })
    } else {
        Err(HookFault { rule: pass.level() })
    }
}

#[test]
fn lends_the_pass_to_the_stored_closures(rt: HostRuntime) -> Result<(), Fail> {
    let cells = saved(7, 1, 2, 5);
    assert_eq!(rt; cells.as_slice(), [7, 1, 2, 5].as_slice());
    assert_eq!(rt; loaded(&cells, 1, 3, 5), Ok(Echo { digit: 3 }));
    assert_eq!(rt; loaded(&cells, 1, 3, 4), Err(HookFault { rule: 1 }));
    Ok(())
}
