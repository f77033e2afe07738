//! The words of the command line.
ghost use Rattle.std.specs.Prelude.{◌≡◌, ◌⊎◌, IfErr, IfSome, map, string_bytes};
ghost use Rattle.bpfdb_faults.specs.declared.fault.JobFault.TheVariants.{Memory, NotText};
ghost use Rattle.bpfdb_script.specs.Shown.{shown};

use bpfdb_faults::JobFault;
use bpfdb_script::shown_name;
use std::alloc::Global;
use std::env;
use std::io::ErrorKind;

/// The words of the command line, the program's name first.
pub fn words_of<'a>(rt: &HostRuntime) -> Result<Vec<String>, JobFault<'a>>
    ensures err { IfErr result (λ fault. (fault ≡ Memory) ⊎ (fault ≡ NotText)) }
{
    let args = match env::args(rt) {
        Ok(args) => args,
        Err(error) => match error.kind() {
            ErrorKind::OutOfMemory => return Err(JobFault::Memory),
            _ => return Err(JobFault::NotText),
        },
    };
    let mut words = Vec::new(rt.alloc());
    for word in args {
        match words.push(word) {
            Ok(()) => {}
            Err(_) => return Err(JobFault::Memory),
        }
    }
    Ok(words)
}

/// Words as `plan` takes them; None where memory ran out.
pub fn texts_of<'a>(alloc: Global, words: &'a [String]) -> Option<Vec<&'a str>>
    ensures { IfSome result (λ texts. map (λ text. text.now) texts.items
        ≡ map string_bytes words.now) }
{
    let mut texts = Vec::new(alloc);
    for word in words {
        match texts.push(word.as_str()) {
            Ok(()) => {}
            Err(_) => return None,
        }
    }
    Some(texts)
}

/// Words as they are shown, each as a name is; None where memory ran out.
pub fn shown_words(alloc: Global, words: &[String]) -> Option<Vec<String>>
    ensures { IfSome result (λ texts. map string_bytes texts.items
        ≡ map (λ word. shown (string_bytes word)) words.now) }
{
    let mut texts = Vec::new(alloc);
    for word in words {
        let Some(text) = shown_name(alloc, word.as_str()) else {
            return None;
        };
        match texts.push(text) {
            Ok(()) => {}
            Err(_) => return None,
        }
    }
    Some(texts)
}
