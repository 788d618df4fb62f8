//! The program. It passes the system's arguments, folder, input and outputs to `program`, and exits
//! with the status.
#![tactic(auto)]

ghost use Rattle.std.specs.Prelude.{◌≡◌, ◌∷◌, [], codes, drop, map, string_bytes, Ok, IfOk, IfErr, IsErr};
ghost use Rattle.std.specs.IoError.{error_kind};
ghost use Rattle.std.specs.Vec.Iter.{into_iter_items};
ghost use Rattle.vms_io.specs.Folders.{folder_of};

use std::alloc::Global;
use std::env::Args;
use std::io::ErrorKind;
use std::process::ExitCode;
use std::{env, io};
use vms_cli::{Words, program};
use vms_io::{FileShelf, NoMemory};

fn main(rt: HostRuntime) -> ExitCode {
    let handed = handed(&rt, words(rt.alloc(), env::args(&rt)));
    let (status, _out, _notes) = program(rt.alloc(), handed, rt.stdin(), rt.stdout(), rt.stderr());
    ExitCode::from(status)
}

// Returns the words, and the files of the current folder.
fn handed(
    rt: &HostRuntime,
    words: Result<Words, NoMemory>,
) -> Result<(Words, FileShelf<HostRuntime>), NoMemory>
    ensures words { IfOk result (λ given. words ≡ Ok given.0) }
    ensures folder { IfOk result (λ given. folder_of given.1 ≡ codes ".") }
{
    let words = words?;
    let folder = String::from_str(rt.alloc(), ".")?;
    Ok((words, FileShelf::new(rt.clone()?, folder)))
}

// Returns the words after the program's name, or one empty word if one of them isn't UTF-8.
fn words(alloc: Global, args: io::Result<Args>) -> Result<Words, NoMemory>
    ensures given { IfOk args (λ args. IfOk result (λ words.
        words ≡ map (λ word. string_bytes word) (drop 1 (into_iter_items args)))) }
    ensures none { IfErr args (λ error. IfOk result (λ words. words ≡ [] ∷ [])) }
    ensures memory { IfErr args (λ error.
        error_kind error ≡ ErrorKind.OutOfMemory → IsErr result) }
{
    match args {
        Ok(args) => after_name(alloc, args),
        Err(error) if error.kind() == ErrorKind::OutOfMemory => Err(NoMemory),
        Err(_) => {
            let mut words = Words::new(alloc);
            words.push("")?;
            Ok(words)
        }
    }
}

// Returns all arguments but the first, which is the program's name.
fn after_name(alloc: Global, mut args: Args) -> Result<Words, NoMemory>
    ensures { IfOk result (λ words.
        words ≡ map (λ word. string_bytes word) (drop 1 (into_iter_items args))) }
{
    let mut words = Words::new(alloc);
    let _name = args.next();
    for word in args {
        words.push(word.as_str())?;
    }
    Ok(words)
}
