// Lists of blocks and sign-offs.
ghost use Rattle.std.specs.Prelude.{◌≡◌, Err, OnErr};
ghost use Rattle.proof_store.specs.Provers.{Rises};
ghost use Rattle.desk_core.specs.Quiet.{Reads, StepsQuietly};
ghost use Rattle.desk_core.specs.Steps.{Lists, ListsSigns};

use desk_core_commands::{Answer, Names, Signs};
use outside::Keeper;
use proof_store::StoreFault;
use std::alloc::Global;

/// The names of all blocks, in byte order.
pub fn list_blocks<K: Keeper>(alloc: Global, keeper: &mut K) -> Result<Answer, StoreFault>
    ensures step { StepsQuietly (Reads Lists) result (K.tables keeper.old) (K.tables keeper.new) }
    ensures same { K.tables keeper.new ≡ K.tables keeper.old }
    ensures faults { Rises (result ≡ Err StoreFault.Keeper) (K.faults keeper.old) (K.faults keeper.new) }
{
    let names = keeper.names(alloc)?;
    Ok(Answer::Names(Names::new(names)))
}

/// All sign-offs, by their numbers.
pub fn list_signs<K: Keeper>(alloc: Global, keeper: &mut K) -> Result<Answer, StoreFault>
    ensures step { StepsQuietly (Reads ListsSigns) result (K.tables keeper.old) (K.tables keeper.new) }
    ensures same { K.tables keeper.new ≡ K.tables keeper.old }
    ensures faults { Rises (result ≡ Err StoreFault.Keeper) (K.faults keeper.old) (K.faults keeper.new) }
{
    let signs = keeper.signs(alloc)?;
    Ok(Answer::Signs(Signs::new(signs)))
}
