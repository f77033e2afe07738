//! Where Linux's library of helpers lies.
ghost use Rattle.std.specs.Prelude.{◌≡◌, None, false, option_map, string_bytes, true};

use std::{env, fs};

/// The variable of the environment that names it. Where it is set to nothing, none is joined by itself.
const VARIABLE: &str = "BPFDB_LINUX";

/// Where it lies else, from the folder of the program on: beside it, or as it is installed.
const PLACES: [&str; 2] = ["bpfdb-linux", "../share/bpfdb/bpfdb-linux"];

/// How its path ends, as a whole; its parts lie in a folder beside it.
const OBJECT: &str = ".o";

/// What is known of it.
#[derive(Drop)]
pub struct Library {
    /// It may be joined by itself.
    pub is_wanted: bool,
    /// Its path, where one is known.
    path: Option<String>,
    /// The folder of its parts, where one is known: that of the program's own library alone.
    parts: Option<String>,
}

impl Library {
    /// The library of this system.
    pub fn of(rt: &HostRuntime) -> Library
        ensures { result.is_wanted ≡ false → result.path ≡ None }
    {
        match env::var(rt, VARIABLE) {
            Ok(path) => Library::named(path),
            Err(_) => Library::beside(rt),
        }
    }

    /// The one of this path; none where it is empty.
    fn named(path: String) -> Library
        ensures { result.is_wanted ≡ false → result.path ≡ None }
    {
        if path.is_empty() {
            Library::none()
        } else {
            Library {
                is_wanted: true,
                path: Some(path),
                parts: None,
            }
        }
    }

    /// None.
    pub fn none() -> Library
        ensures wanted { result.is_wanted ≡ false }
        ensures path { result.path ≡ None }
    {
        Library {
            is_wanted: false,
            path: None,
            parts: None,
        }
    }

    /// The one that belongs to the program, where there is one.
    fn beside(rt: &HostRuntime) -> Library
        ensures { result.is_wanted ≡ true }
    {
        let place = place_beside(rt);
        let parts = match &place {
            Some(place) => ended(rt, place.as_str(), "/parts"),
            None => None,
        };
        let path = match &place {
            Some(place) => ended(rt, place.as_str(), OBJECT),
            None => None,
        };
        Library {
            is_wanted: true,
            path,
            parts,
        }
    }

    /// Its path, lent.
    pub fn path(&self) -> Option<&str>
        ensures { option_map (λ path. path.now) result ≡ option_map string_bytes self.now.path }
    {
        match &self.path {
            Some(path) => Some(path.as_str()),
            None => None,
        }
    }

    /// The folder of its parts, lent.
    pub fn parts(&self) -> Option<&str>
        ensures { option_map (λ parts. parts.now) result ≡ option_map string_bytes self.now.parts }
    {
        match &self.parts {
            Some(parts) => Some(parts.as_str()),
            None => None,
        }
    }
}

/// Where the one lies that belongs to the program, where there is one: its path without its end.
fn place_beside(rt: &HostRuntime) -> Option<String> {
    let Ok(program) = env::current_exe(rt) else {
        return None;
    };
    let Some(folder) = program.parent() else {
        return None;
    };
    for place in PLACES {
        match format!(in rt.alloc(); "{}/{place}", folder.as_str()) {
            Ok(place) => {
                if is_library(rt, place.as_str()) {
                    return Some(place);
                }
            }
            Err(_) => return None,
        }
    }
    None
}

/// Whether a library lies in a place.
fn is_library(rt: &HostRuntime, place: &str) -> bool {
    match ended(rt, place, OBJECT) {
        Some(path) => is_there(rt, path.as_str()),
        None => false,
    }
}

/// A place with this end; None where memory ran out.
fn ended(rt: &HostRuntime, place: &str, end: &str) -> Option<String> {
    match format!(in rt.alloc(); "{place}{end}") {
        Ok(path) => Some(path),
        Err(_) => None,
    }
}

/// Whether there is a file of a path, and it can be read.
fn is_there(rt: &HostRuntime, path: &str) -> bool {
    match fs::open(rt, path) {
        Ok(file) => {
            drop(file);
            true
        }
        Err(_) => false,
    }
}
