// Document 02's radiality answer.
ghost use Rattle.std.specs.Prelude.{◌≡◌};
ghost use Rattle.graph.specs.Form.{is_tree, fields_of};

// What the live branches of a feeder are: a tree; a loop, with the first branch that closes one when they are added by rising position, and the islands beside
// it; or islands and no loop. Islands are the connected pieces minus one.
#[derive(Clone, Copy, Debug, PartialEq, Eq)]
pub enum Form {
    Tree,
    Loop { branch: u16, islands: u16 },
    Islands(u16),
}

// The frame 84's branch where there is no loop: a number and no Option, since the frame has just these two bytes there.
const NO_BRANCH: u16 = 0xFFFF;

// The fields of the frame 84.
#[derive(Clone, Copy, Debug, PartialEq, Eq)]
pub struct FormFields {
    pub islands: u16,
    pub branch: u16,
}

// Document 01's radial: a tree.
pub fn is_tree(form: Form) -> bool
    ensures { result ≡ is_tree form }
{
    matches!(form, Form::Tree)
}

// The branch is FFFF where there is no loop.
pub fn fields_of(form: Form) -> FormFields
    ensures { result ≡ fields_of form }
{
    match form {
        Form::Tree => FormFields {
            islands: 0,
            branch: NO_BRANCH,
        },
        Form::Loop { branch, islands } => FormFields { islands, branch },
        Form::Islands(islands) => FormFields {
            islands,
            branch: NO_BRANCH,
        },
    }
}
