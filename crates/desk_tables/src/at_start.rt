ghost use Rattle.std.specs.Prelude.{◌≡◌};
ghost use Rattle.desk_model.specs.Start.{start};
ghost use Rattle.desk_model.specs.declared.edit.Edit.TheVariants.{Declare};
ghost use Rattle.desk_history.specs.Refused.{refused};

use crate::Tables;
use crate::declared::too_full_in;
use desk_model::{Declaration, RuleFault};

impl Tables {
    /// The first rule by which the start tables refuse a declaration. They keep no material, no part and no ticket, so that a
    /// look at its substances and at its masses is enough: no plan is made, and no memory taken.
    pub fn refused_at_start(&self, declaration: &Declaration) -> Option<RuleFault>
        requires { self.now.lists ≡ start }
        ensures { result ≡ refused start (Declare declaration.now) }
    {
        // The call does nothing but say that the declaration is in form.
        declaration.materials();
        match self.unknown_in_declaration(declaration) {
            Some(fault) => Some(fault),
            None => too_full_in(declaration),
        }
    }
}
