// Plans over a host that holds nothing, where every name is refused.
ghost use Rattle.std.specs.Prelude.{◌≡◌, [], IfOk};
ghost use Rattle.key_ciphers.specs.Ciphers.{ciphers};
ghost use Rattle.key_machine.specs.Plain.{no_keys};
ghost use Rattle.key_machine.specs.Sound.{Sound};

use super::*;
use dataset_tree::{RecordBytes, Refusal, SetName, Stop, Tree};
use encryption_roots::{Fetched, LineKit, Options, Roots, SeedGot};
use key_machine::{KeyView, nothing_is_sound};
use std::alloc::Global;
use std::test::Fail;

#[derive(Drop)]
struct EmptyHost {
    tree: Tree,
    roots: Roots,
}

impl KeyView for EmptyHost {
    ghost shows = { λ host. record no_keys { tree = host.tree; roots = host.roots } };

    fn tree(&self) -> &Tree {
        &self.tree
    }

    fn roots(&self) -> &Roots {
        &self.roots
    }

    fn wrapped(&self, _family: u32) -> Option<RecordBytes> {
        None
    }

    fn loaded(&self, _root: u32) -> Option<[u8; 32]> {
        None
    }
}

fn hold_nothing(alloc: Global) -> Result<EmptyHost, Fail>
    ensures { IfOk result (λ host. Sound ciphers (record no_keys { tree = host.tree; roots = host.roots })) }
{
    nothing_is_sound();
    let tree = Tree::new(alloc)?;
    let roots = Roots::new(alloc)?;
    Ok(EmptyHost { tree, roots })
}

#[test]
fn no_name_is_planned_for_where_nothing_is_held(rt: HostRuntime) -> Result<(), Fail> {
    let alloc = rt.alloc();
    let host = hold_nothing(alloc)?;
    let name = SetName::parse(alloc, b"tank")?;
    let kit = LineKit {
        old_key: Fetched::NotAsked,
        new_key: Fetched::NotAsked,
        seed: SeedGot::NotAsked,
    };
    let changed = plan_change(alloc, &host, &name, &Options::none(), false, &kit);
    assert_eq!(rt; changed.err(), Some(Stop::Refused(Refusal::NoSuch)));
    let inherited = plan_inherit(alloc, &host, &name, false, &kit);
    assert_eq!(rt; inherited.err(), Some(Stop::Refused(Refusal::NoSuch)));
    Ok(())
}
