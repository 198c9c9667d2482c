//! Why a file failed, said on the standard error where that is asked for.
use dsp_arguments::{About, Arguments};
use dsp_console::Fault;
use port_files::{Role, Trouble, Troubles};

/// The path of the file of this role, which the standard output hasn't.
fn path_of<'a>(arguments: &Arguments<'a>, role: Role) -> Option<&'a str> {
    let ports = arguments.ports.as_slice();
    match role {
        Role::Script => Some(arguments.script),
        Role::In(pair) => ports.get(pair as usize).map(|ports| ports.0),
        Role::Out(pair) => ports.get(pair as usize).map(|ports| ports.1),
        Role::Replies => None,
    }
}

/// Tells which file failed and why.
pub(crate) fn explain_fault<R: Eprint>(
    rt: &R,
    about: &About,
    arguments: &Arguments<'_>,
    fault: Fault,
    troubles: &Troubles,
) {
    let trouble = match fault {
        Fault::Read => &troubles.read,
        Fault::Write => &troubles.written,
        Fault::Size | Fault::Memory => return,
    };
    let Some(Trouble { role, why }) = trouble else {
        let _ = eprintln!(rt;
            "{}: SCRIPT: {}: it is too long",
            about.name, arguments.script
        );
        return;
    };
    let _ = match path_of(arguments, *role) {
        Some(path) => eprintln!(rt; "{}: {role}: {path}: {why}", about.name),
        None => eprintln!(rt; "{}: {role}: {why}", about.name),
    };
}
