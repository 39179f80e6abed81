//! Laws of codes, as the contract of a function that does nothing. No program calls it, and the
//! root doesn't export it.
ghost use Rattle.std.specs.Prelude.{◌≡◌, ◌<◌, ◌≤◌, ◌↔◌, ℕ, Some, ◌/◌, ◌%◌};
ghost use Rattle.codes3270.specs.Size.{most_cells};
ghost use Rattle.codes3270.specs.Address.{address_of};
ghost use Rattle.codes3270.specs.SixBit.{six_bit_code};
ghost use Rattle.codes3270.specs.Attribute.{attr_of, attr_byte};
ghost use Rattle.codes3270.specs.WriteControl.{wcc_of, wcc_byte};
ghost use Rattle.codes3270.specs.Aid.{IsRealAid, aid_of, byte_of_aid};
ghost use Rattle.codes3270.specs.CodePage.{character_of, code_of};
ghost use Rattle.codes3270.specs.declared.attribute.Attr.{Attr};
ghost use Rattle.codes3270.specs.declared.write_control.Wcc.{Wcc};
ghost use Rattle.codes3270.specs.declared.attention.Aid.{Aid};

/// Law: each value decodes from its own encoding, the two directions of the code page are inverse,
/// and the codes of characters are 0x40 to 0xFE.
pub const fn code_laws()
    ensures addresses { (address : ℕ) → address < most_cells →
        address_of (six_bit_code (address / 64)) (six_bit_code (address % 64)) ≡ address }
    ensures attributes { (attr : Attr) → attr_of (attr_byte attr) ≡ attr }
    ensures write_controls { (wcc : Wcc) → wcc_of (wcc_byte wcc) ≡ wcc }
    ensures aids { (aid : Aid) → IsRealAid aid → aid_of (byte_of_aid aid) ≡ Some aid }
    ensures characters { (code character : ℕ) → (character_of code ≡ Some character) ↔ (code_of character ≡ Some code) }
    ensures range { (code character : ℕ) → code_of character ≡ Some code → (0x40 ≤ code) × (code ≤ 0xFE) }
{}
