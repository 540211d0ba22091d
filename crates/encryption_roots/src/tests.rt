use super::*;
use dataset_tree::{Format, Kind, SetName, Suite, Tree};
use std::alloc::Global;
use std::test::Fail;

#[test]
fn texts_are_copied(rt: HostRuntime) -> Result<(), Fail> {
    let alloc = rt.alloc();
    let path = PathText::parse(alloc, b"/my-keys/!k~")?.ok_or("no path")?;
    assert_eq!(rt; path.copy()?.as_str(), "/my-keys/!k~");
    assert_eq!(rt; path.as_bytes(), b"/my-keys/!k~".as_slice());
    assert!(rt; PathText::parse(alloc, b"k/")?.is_none());
    let material = Material::new(vec![in alloc; 1, 2]?);
    assert_eq!(rt; material.copy()?.as_bytes(), [1, 2].as_slice());
    let text = PropText::new(vec![in alloc; b'-']?);
    assert_eq!(rt; text.copy()?.as_bytes(), b"-".as_slice());
    Ok(())
}

fn add(alloc: Global, tree: &mut Tree, name: &[u8]) -> Result<u32, Fail> {
    Ok(tree.add(&SetName::parse(alloc, name)?, Kind::Crypt, 0)?)
}

fn prompt() -> Props {
    Props {
        format: Format::Raw,
        place: Location::Prompt,
        iters: 0,
        salt: 0,
    }
}

#[test]
fn roots_own_families(rt: HostRuntime) -> Result<(), Fail> {
    let alloc = rt.alloc();
    let mut tree = Tree::new(alloc)?;
    let tank = add(alloc, &mut tree, b"tank")?;
    let heir = add(alloc, &mut tree, b"tank/a")?;
    let child = add(alloc, &mut tree, b"tank/b")?;
    let mut roots = Roots::new(alloc)?;
    roots.insert(child, prompt())?;
    roots.insert(tank, prompt())?;
    assert!(rt; roots.contains(tank) && roots.get(heir).is_none());
    assert_eq!(rt; owner_of(&tree, &roots, heir), Some(tank));
    assert_eq!(rt; family_of(&tree, heir), heir);
    assert_eq!(rt;
        owned_families(alloc, &tree, &roots, tank)?.as_slice(),
        [1, 2].as_slice()
    );
    assert_eq!(rt;
        roots_below(alloc, &tree, &roots, tank)?.as_slice(),
        [1, 3].as_slice()
    );
    let copied = roots.copy()?;
    roots.remove(child);
    assert!(rt; roots.entries().len() == 1 && copied.entries().len() == 2);
    owners_by_walking();
    families_have_one_owner();
    families_by_owner();
    roots_by_parents();
    values_of_owned_families();
    Ok(())
}

#[test]
fn commands_and_kits_are_copied(rt: HostRuntime) -> Result<(), Fail> {
    let alloc = rt.alloc();
    let create = KeyCmd::Create {
        name: SetName::parse(alloc, b"tank")?,
        opts: Options {
            suite: Some(Suite::Aes192Gcm),
            place: Some(prompt().copy()?.place),
            ..Options::none()
        },
    };
    let KeyCmd::Create { opts, .. } = create.copy()? else {
        return Err("another command".into());
    };
    assert!(rt; opts.copy()?.suite == Some(Suite::Aes192Gcm));
    let kit = LineKit {
        old_key: Fetched::NotAsked,
        new_key: Fetched::Missing,
        seed: SeedGot::Got([7; 32]),
    };
    assert!(rt; kit.copy()?.seed == SeedGot::Got([7; 32]));
    Ok(())
}
