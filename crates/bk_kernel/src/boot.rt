// The kernel at the start, from an image.

ghost use Rattle.std.specs.Prelude.{◌≡◌, IfOk};
ghost use Rattle.bk_image.specs.Accepted.{IsAccepted};
ghost use Rattle.bk_state.specs.Start.{state_of};
ghost use Rattle.bk_kernel.specs.Progress.{begun};
ghost use Rattle.bk_kernel.specs.Tables.{HasRunNothing};

use crate::kernel::Kernel;
use crate::tables::Tables;
use bk_base::NoMemory;
use bk_load::load;
use bk_machine::{Machine, law_vectors};
use bk_pages::set_pages;
use bk_state::Image;
use std::alloc::Global;

// The tables of an image's state, with subject 0 loaded.
fn tables_from(alloc: Global, image: &Image) -> Result<Tables, NoMemory>
    requires { IsAccepted image.now }
    ensures state { IfOk result (λ tables. tables.state ≡ state_of image.now) }
    ensures nothing { IfOk result (λ tables. HasRunNothing tables.machine) }
{
    let mut machine = Machine::reserve(alloc)?;
    let loaded = load(alloc, machine.core_mut(), image)?;
    law_vectors();
    let first = &loaded.processes[0];
    machine.set_process(&first.registers);
    set_pages(&mut machine, &loaded.store, 0, &first.windows);
    Ok(Tables {
        clearances: loaded.clearances,
        lines: loaded.lines,
        turns: loaded.turns,
        schedule: loaded.schedule,
        processes: loaded.processes,
        store: loaded.store,
        machine,
        loaded: 0,
    })
}

impl Kernel {
    /// The kernel of an accepted image, before its first slot: the process of subject 0 is loaded in its machine, which has run
    /// nothing. All memory is taken here, and no other call takes any; `NoMemory` comes where the host has no more.
    pub fn boot(alloc: Global, image: &Image) -> Result<Kernel, NoMemory>
        requires { IsAccepted image.now }
        ensures begun { IfOk result (λ kernel. kernel.progress ≡ begun (state_of image.now)) }
        ensures nothing { IfOk result (λ kernel. HasRunNothing kernel.machine) }
    {
        let tables = tables_from(alloc, image)?;
        Ok(Kernel {
            tables,
            slots: 0,
            since: 0,
            turns: 0,
            calls: 0,
        })
    }
}
