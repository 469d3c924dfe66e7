// What an engine has to be capable of to run an operation.

ghost use Rattle.std.specs.Prelude.{◌≡◌, ◌++◌, [], true, IfOk, codes, nat_eq};
ghost use Rattle.std.specs.List.{starts_with};
ghost use Rattle.std.specs.String.{string_bytes};
ghost use Rattle.exported.specs.Capabilities.{with_cap, attribute_caps, source_caps, is_chosen, mount_kind_caps, mount_caps, mounts_caps, exec_caps, kind_caps};
ghost use Rattle.llbmessages.specs.declared.exec.MountKind.TheVariants.{Bind as BindMount, Cache as CacheMount};
ghost use Rattle.llbmessages.specs.declared.op.OpKind.TheVariants.{End as EndKind};

use llbmessages::{ExecOp, Mount, MountKind, Network, OpKind, SourceOp};
use plain::{Memory, Text};
use std::alloc::Global;
use std::collections::BTreeMap;

/// Capabilities in the order of their names.
pub(crate) type Caps = BTreeMap<Text, bool>;

/// Capabilities with one more, if it is asked for.
pub(crate) fn with_cap(alloc: Global, caps: Caps, asked: bool, name: &str) -> Result<Caps, Memory>
    ensures { IfOk result (λ more. more.entries ≡ with_cap asked name.now caps.entries) }
{
    let mut caps = caps;
    if asked {
        caps.insert(Text::from_str(alloc, name)?, true)?;
    }
    Ok(caps)
}

/// One capability.
fn one_cap(alloc: Global, name: &str) -> Result<Caps, Memory>
    ensures { IfOk result (λ caps. caps.entries ≡ with_cap true name.now []) }
{
    with_cap(alloc, BTreeMap::new(alloc), true, name)
}

/// The name of an attribute's capability.
fn attribute_cap(alloc: Global, attribute: &str) -> Result<String, Memory>
    ensures { IfOk result (λ name. string_bytes name ≡ codes "source." ++ attribute.now) }
{
    let mut name = String::from_str(alloc, "source.")?;
    name.push_str(attribute)?;
    Ok(name)
}

/// Capabilities with those of attributes.
fn attribute_caps(alloc: Global, caps: Caps, attributes: &[(Text, Text)]) -> Result<Caps, Memory>
    ensures { IfOk result (λ more. more.entries ≡ attribute_caps attributes.now caps.entries) }
{
    let mut caps = caps;
    for attribute in attributes {
        let name = attribute_cap(alloc, attribute.0.as_str())?;
        caps = with_cap(alloc, caps, true, name.as_str())?;
    }
    Ok(caps)
}

/// Whether a source is files of the build.
fn is_local(identifier: &str) -> bool
    ensures { result ≡ starts_with nat_eq identifier.now (codes "local://") }
{
    identifier.starts_with("local://")
}

/// The capabilities of a source.
#[tactic(auto, unfolding(crate::specs::Capabilities::source_caps))]
fn source_caps(alloc: Global, source: &SourceOp) -> Result<Caps, Memory>
    ensures { IfOk result (λ caps. caps.entries ≡ source_caps source.now) }
{
    if is_local(source.identifier.as_str()) {
        let caps = one_cap(alloc, "source.local")?;
        return attribute_caps(alloc, caps, source.attrs.entries());
    }
    one_cap(alloc, "source.image")
}

/// Whether a network is another one than an engine gives by itself.
fn is_chosen(network: Network) -> bool
    ensures { result ≡ is_chosen network }
{
    match network {
        Network::Sandbox => false,
        Network::Host | Network::None => true,
    }
}

/// Capabilities with those of a bind mount.
fn bind_caps(alloc: Global, caps: Caps, mount: &Mount) -> Result<Caps, Memory>
    ensures { IfOk result (λ more. more.entries ≡ mount_kind_caps BindMount mount.now caps.entries) }
{
    let caps = with_cap(alloc, caps, 0 <= mount.input, "exec.mount.bind")?;
    let is_lost = !mount.readonly && !(0 <= mount.output);
    with_cap(alloc, caps, is_lost, "exec.mount.bind.readwrite-nooutput")
}

/// Capabilities with those of what a mount is.
fn mount_kind_caps(alloc: Global, caps: Caps, mount: &Mount) -> Result<Caps, Memory>
    ensures { IfOk result (λ more. more.entries ≡ mount_kind_caps mount.now.kind mount.now caps.entries) }
{
    match &mount.kind {
        MountKind::Bind => bind_caps(alloc, caps, mount),
        MountKind::Cache(_) => {
            let caps = with_cap(alloc, caps, true, "exec.mount.cache")?;
            with_cap(alloc, caps, true, "exec.mount.cache.sharing")
        }
    }
}

/// Capabilities with those of a mount.
#[tactic(auto, unfolding(crate::specs::Capabilities::mount_caps))]
fn mount_caps(alloc: Global, caps: Caps, mount: &Mount) -> Result<Caps, Memory>
    ensures { IfOk result (λ more. more.entries ≡ mount_caps mount.now caps.entries) }
{
    let has_selector = !mount.selector.as_str().is_empty();
    let caps = with_cap(alloc, caps, has_selector, "exec.mount.selector")?;
    mount_kind_caps(alloc, caps, mount)
}

/// Capabilities with those of mounts.
fn mounts_caps(alloc: Global, caps: Caps, mounts: &[Mount]) -> Result<Caps, Memory>
    ensures { IfOk result (λ more. more.entries ≡ mounts_caps mounts.now caps.entries) }
{
    let mut caps = caps;
    for mount in mounts {
        caps = mount_caps(alloc, caps, mount)?;
    }
    Ok(caps)
}

/// The capabilities of a command.
#[tactic(auto, unfolding(crate::specs::Capabilities::exec_caps))]
fn exec_caps(alloc: Global, exec: &ExecOp) -> Result<Caps, Memory>
    ensures { IfOk result (λ caps. caps.entries ≡ exec_caps exec.now) }
{
    let caps = one_cap(alloc, "exec.meta.base")?;
    let caps = with_cap(alloc, caps, is_chosen(exec.network), "exec.meta.network")?;
    mounts_caps(alloc, caps, exec.mounts.as_slice())
}

/// The capabilities of a definition.
pub(crate) fn end_caps(alloc: Global) -> Result<Caps, Memory>
    ensures { IfOk result (λ caps. caps.entries ≡ kind_caps EndKind) }
{
    let caps = one_cap(alloc, "constraints")?;
    with_cap(alloc, caps, true, "platform")
}

/// The capabilities of what an operation does.
pub(crate) fn kind_caps(alloc: Global, kind: &OpKind) -> Result<Caps, Memory>
    ensures { IfOk result (λ caps. caps.entries ≡ kind_caps kind.now) }
{
    match kind {
        OpKind::End => end_caps(alloc),
        OpKind::Exec(exec) => exec_caps(alloc, exec),
        OpKind::Source(source) => source_caps(alloc, source),
        OpKind::File(_) => one_cap(alloc, "file.base"),
        OpKind::Merge(_) => one_cap(alloc, "mergeop"),
    }
}
