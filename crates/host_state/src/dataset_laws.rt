// Laws of a host's datasets and their families. The functions do nothing.
ghost use Rattle.std.specs.Prelude.{◌≡◌, ℕ, None, Some, is_some};
ghost use Rattle.encryption_roots.specs.ById.{at_id};
ghost use Rattle.family_log.specs.Model.{FamilyState, head_of};
ghost use Rattle.file_dataset.specs.declared.command.FileCmd.{FileCmd};
ghost use Rattle.key_ciphers.specs.Ciphers.{ciphers};
ghost use Rattle.key_machine.specs.Sound.{IsEncrypted, Sound};
ghost use Rattle.host_state.specs.FileLines.{file_refusal, set_of};
ghost use Rattle.host_state.specs.Hosts.{HostState, IsHost, is_member};
ghost use Rattle.host_state.specs.Mounted.{HasHead, IsCalled};

/// A family of a host has a head of each dataset that is of it, and no other. The family of each encrypted dataset is
/// there.
pub fn families_have_their_datasets()
    ensures heads { (h : HostState) (of id : ℕ) (state : FamilyState) → IsHost h.tells h.keys h.families h.limit
        → at_id of h.families ≡ Some state
        → is_some (head_of id state.heads) ≡ is_member h.keys.tree.rows of id }
    ensures datasets { (h : HostState) (id : ℕ) → IsHost h.tells h.keys h.families h.limit
        → Sound ciphers h.keys → IsEncrypted h.keys id → HasHead h id }
{}

/// A command about the files of a mounted dataset is what the call on the dataset's head gives, under the opened
/// master key of its family: none of them is ever missing.
pub fn mounted_datasets_are_served()
    ensures { (h : HostState) (command : FileCmd) → IsHost h.tells h.keys h.families h.limit → Sound ciphers h.keys
        → file_refusal h.keys (set_of command) ≡ None → IsCalled h command }
{}
