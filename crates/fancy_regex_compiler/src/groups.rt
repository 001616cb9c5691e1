//! The capture groups of an analyzed tree, which subroutine calls refer to.

ghost use Rattle.std.specs.Prelude.{◌≡◌, ◌++◌, map, IfOk};
ghost use Rattle.fancy_regex_info.specs.Infos.{info_of};
ghost use Rattle.fancy_regex_compiler.specs.Groups.{own_bodies, bodies_in_row};
ghost use Rattle.fancy_regex_compiler.specs.Known.{bodies_in, groups_in};
ghost use Rattle.fancy_regex_compiler.specs.Writing.{info_at};

use fancy_regex_info::Info;
use fancy_regex_tree::Expr;
use std::alloc::AllocError;

/// Appends the bodies of the groups in the order of their numbers; first the whole tree if group 0 is the whole match. The
/// error is want of memory.
pub(crate) fn add_groups<'i, 'e>(
    info: &'i Info<'e>,
    whole: bool,
    groups: &mut Vec<&'i Info<'e>>,
) -> Result<(), AllocError>
    ensures { IfOk result (λ _. map info_at groups.new.items ≡ map info_at groups.old.items ++ groups_in whole (info_of info.now)) }
{
    if whole {
        groups.push(info)?;
    }
    add_bodies(info, groups)?;
    Ok(())
}

/// Appends the body of each group of the tree, in the order of their opening parentheses.
#[cycle(bodies)]
fn add_bodies<'i, 'e>(info: &'i Info<'e>, groups: &mut Vec<&'i Info<'e>>) -> Result<(), AllocError>
    ensures { IfOk result (λ _. map info_at groups.new.items ≡ map info_at groups.old.items ++ bodies_in (info_of info.now)) }
{
    add_own_body(info, groups)?;
    add_row_bodies(&info.children, groups)?;
    Ok(())
}

/// Appends the bodies of the groups in a list of nodes.
#[cycle(bodies)]
fn add_row_bodies<'i, 'e>(
    children: &'i [Info<'e>],
    groups: &mut Vec<&'i Info<'e>>,
) -> Result<(), AllocError>
    ensures { IfOk result (λ _. map info_at groups.new.items ≡ map info_at groups.old.items ++ bodies_in_row children.now) }
{
    for child in children {
        add_bodies(child, groups)?;
    }
    Ok(())
}

/// Appends the body of the node if it is a group.
fn add_own_body<'i, 'e>(
    info: &'i Info<'e>,
    groups: &mut Vec<&'i Info<'e>>,
) -> Result<(), AllocError>
    ensures { IfOk result (λ _. map info_at groups.new.items ≡ map info_at groups.old.items ++ own_bodies (info_of info.now)) }
{
    match info.expr {
        Expr::Group(_) => {
            add_children(&info.children, groups)?;
            Ok(())
        }
        _ => Ok(()),
    }
}

/// Appends the children of a node.
fn add_children<'i, 'e>(
    children: &'i [Info<'e>],
    groups: &mut Vec<&'i Info<'e>>,
) -> Result<(), AllocError>
    ensures { IfOk result (λ _. map info_at groups.new.items ≡ map info_at groups.old.items ++ map info_of children.now) }
{
    for child in children {
        groups.push(child)?;
    }
    Ok(())
}
