//! The text of a slot.
ghost use Rattle.std.specs.Prelude.{◌≡◌};
ghost use Rattle.bpfdb_script.specs.SlotTexts.{text_of_slot};

/// The texts of the first slots of a program, where there are any.
pub type SlotTexts<'a> = Option<&'a [Vec<u8>]>;

/// The text of a slot: no byte where there is none.
#[inline(always)]
pub fn text_of_slot<'a>(texts: SlotTexts<'a>, slot: usize) -> &'a [u8]
    ensures { result.now ≡ text_of_slot texts.entry slot }
{
    match texts {
        Some(texts) => match texts.get(slot) {
            Some(text) => text.as_slice(),
            None => &[],
        },
        None => &[],
    }
}
