//! Laws of the definitions, each proved as the contract of a function that does nothing.
ghost use Rattle.bpf_link_laws.specs.Setups.{SetupsStoreTheData};

/// The setup of a linked program: so many steps lead a machine from its opening to the entry, and
/// leave it as it was but for pc and the bytes of the data in their maps. A program without one
/// begins at its entry, or goes there in one step.
#[tactic(none)]
pub fn setups_store_the_data()
    ensures { SetupsStoreTheData }
{}
