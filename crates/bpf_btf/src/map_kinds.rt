//! The kinds of maps by name.
ghost use Rattle.std.specs.Prelude.{◌≡◌};
ghost use Rattle.bpf_btf.specs.MapKinds.{kind_text, other_text, rare_text};

/// That a map is of a kind, as it is refused for it.
pub fn kind_text(kind: u32) -> &'static str
    ensures { result.now ≡ kind_text kind }
{
    match kind {
        0 => "map has no kind, and is no array",
        1 => "map is a hash, and no array",
        3 => "map is a program array, and no array of values",
        4 => "map is a perf event array, and no array of values",
        5 => "map is a per-CPU hash, and no array",
        7 => "map is a stack trace, and no array",
        8 => "map is a cgroup array, and no array of values",
        9 => "map is an LRU hash, and no array",
        10 => "map is a per-CPU LRU hash, and no array",
        11 => "map is an LPM trie, and no array",
        _ => other_text(kind),
    }
}

/// The text of the kinds from 12 on.
fn other_text(kind: u32) -> &'static str
    ensures { result.now ≡ other_text kind }
{
    match kind {
        12 => "map is an array of maps, and no array of values",
        13 => "map is a hash of maps, and no array",
        14 => "map is a device map, and no array",
        15 => "map is a socket map, and no array",
        16 => "map is a CPU map, and no array",
        17 => "map is an XSK map, and no array",
        18 => "map is a socket hash, and no array",
        19 => "map is a cgroup storage, and no array",
        20 => "map is a reuseport socket array, and no array of values",
        21 => "map is a per-CPU cgroup storage, and no array",
        22 => "map is a queue, and no array",
        _ => rare_text(kind),
    }
}

/// The text of the kinds from 23 on.
fn rare_text(kind: u32) -> &'static str
    ensures { result.now ≡ rare_text kind }
{
    match kind {
        23 => "map is a stack, and no array",
        24 => "map is a socket storage, and no array",
        25 => "map is a device hash, and no array",
        26 => "map is a struct_ops, and no array",
        27 => "map is a ring buffer, and no array",
        28 => "map is an inode storage, and no array",
        29 => "map is a task storage, and no array",
        30 => "map is a Bloom filter, and no array",
        31 => "map is a user ring buffer, and no array",
        32 => "map is a cgroup local storage, and no array",
        33 => "map is an arena, and no array",
        _ => "map is of unknown kind, and no array",
    }
}
