// The ports of the top (IEEE 1364-2005, section 12.3).

ghost use Rattle.std.specs.Prelude.{◌≡◌, IfOk, map, filter};
ghost use Rattle.vlog_tree_runs.specs.Contents.{decls_in, port_names};
ghost use Rattle.elab_flat_scopes.specs.Borrowed.{name_meant, decl_meant};
ghost use Rattle.elab_flat_scopes.specs.Finding.{decl_name};
ghost use Rattle.elab_flat_faults.specs.Handed.{top_port};

use elab_flat_scopes::{Decl, Names, decls_in, port_names};
use outside::Text;
use sqlite_items::Items;
use std::alloc::{AllocError, Global};
use vlog_tree::Module;
use vlog_tree_runs::TopPort;

// The names of the declarations of outputs.
fn output_names<'a>(alloc: Global, decls: &[Decl<'a>]) -> Result<Vec<&'a Text>, AllocError>
    ensures { IfOk result (λ r. map name_meant r.items ≡ map decl_name
        (filter (λ d. d.output) (map decl_meant decls.now))) }
{
    let mut names = Vec::new(alloc);
    for decl in decls {
        if decl.output {
            names.push(decl.name)?;
        }
    }
    Ok(names)
}

/// The ports of a module, in the order of its header.
pub fn ports_of(alloc: Global, text: &Module) -> Result<Items<TopPort>, AllocError>
    ensures { IfOk result (λ ports. ports ≡ map (top_port (decls_in text.now)) (port_names text.now)) }
{
    let decls = decls_in(alloc, text)?;
    let outputs = Names::of(alloc, output_names(alloc, &decls)?)?;
    let names = port_names(alloc, text)?;
    let mut ports = Items::new(alloc);
    for name in &names {
        ports.push(TopPort {
            name: Text::copy(alloc, name.bytes())?,
            output: outputs.has(name.bytes()),
        })?;
    }
    Ok(ports)
}
