ghost use Rattle.std.specs.Prelude.{◌≡◌, ◌<◌, ◌/◌, ◌%◌, ◌^◌, Ok, Err, false, true};
ghost use Rattle.bk_space.specs.declared.reference.Mode.TheVariants.{Supervisor, User};
ghost use Rattle.bk_space.specs.declared.reference.Space.TheVariants.{D, I};
ghost use Rattle.bk_space.specs.declared.reference.Abort.TheVariants.{NonResident, Length, ReadOnly};
ghost use Rattle.bk_space.specs.declared.reference.Rights.TheVariants as rights;
ghost use Rattle.bk_space.specs.Status.{has_bit};
ghost use Rattle.bk_mmu.specs.ActivePages.{ActivePage, IsPlaced, address_word, descriptor_word, loaded, non_resident, relocated, relocated_in};
ghost use Rattle.bk_mmu.specs.Example.{one_page};

/// The fields of a page's registers stand in their words where the handbook has them: the page address field in bits 11 to 0,
/// the page length field in bits 14 to 8, the expansion direction in bit 3, the access control field in bits 2 to 0.
pub fn law_registers()
    ensures address { (page : ActivePage) → IsPlaced page → address_word page % 2 ^ 12 ≡ page.address_field }
    ensures length { (page : ActivePage) → IsPlaced page → descriptor_word page / 2 ^ 8 % 2 ^ 7 ≡ page.descriptor.length_field }
    ensures direction { (page : ActivePage) → IsPlaced page → has_bit (descriptor_word page) 0o10 ≡ page.descriptor.downward }
    ensures control { (page : ActivePage) → IsPlaced page → descriptor_word page % 2 ^ 3 ≡ page.descriptor.access_control }
{}

/// References worked by hand, to the registers that `load(25, 64, 1, Rights::Read)` leaves of a new unit: in user D space the
/// 64 bytes from 020000 on are the bytes from 010000 on of core, and may be read. Where two refusals hold, the first of the
/// order is the answer. A page of 128 blocks that ends with core may be written to its last byte.
#[tactic(auto, unfolding(crate::specs::ActivePages::relocated))]
pub fn law_example()
    ensures address { address_word (loaded 64 1 rights.Read) ≡ 0o000100 }
    ensures descriptor { descriptor_word (loaded 64 1 rights.Read) ≡ 0o000002 }
    ensures first { relocated_in one_page User D 0o020000 false ≡ Ok 0o010000 }
    ensures last { relocated_in one_page User D 0o020077 false ≡ Ok 0o010077 }
    ensures length { relocated_in one_page User D 0o020100 false ≡ Err Length }
    ensures read_only { relocated_in one_page User D 0o020000 true ≡ Err ReadOnly }
    ensures length_first { relocated_in one_page User D 0o020100 true ≡ Err Length }
    ensures absent { relocated_in one_page User D 0o000000 false ≡ Err NonResident }
    ensures absent_first { relocated_in one_page User D 0o057777 true ≡ Err NonResident }
    ensures other_mode { relocated_in one_page Supervisor D 0o020000 false ≡ Err NonResident }
    ensures other_space { relocated_in one_page User I 0o020000 false ≡ Err NonResident }
    ensures largest { descriptor_word (loaded 3840 128 rights.Write) ≡ 0o077406 }
    ensures end { relocated (loaded 3840 128 rights.Write) 0o17777 true ≡ Ok 0o757777 }
    ensures of_none { loaded 64 1 rights.None ≡ non_resident }
{}
