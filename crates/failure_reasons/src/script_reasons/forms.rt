//! How the commands of a script are written, in sentences without their full stops.

ghost use Rattle.std.specs.Prelude.{◌≡◌, option_map};
ghost use Rattle.failure_reasons.specs.Forms.{alone_form, beside_form, common_form, edit_form};
ghost use Rattle.failure_reasons.specs.Lines.{form_of};

/// How the command of this name is written.
pub(crate) fn form_of(name: &str) -> Option<&'static str>
    ensures { option_map (λ form. form.now) result ≡ form_of name.now }
{
    match edit_form(name) {
        Some(form) => Some(form),
        None => match common_form(name) {
            Some(form) => Some(form),
            None => match alone_form(name) {
                Some(form) => Some(form),
                None => beside_form(name),
            },
        },
    }
}

/// How the edits and their groups are.
fn edit_form(name: &str) -> Option<&'static str>
    ensures { option_map (λ form. form.now) result ≡ edit_form name.now }
{
    match name {
        "insert" => Some("insert takes first or after ID, and pairs of hexadecimal digits"),
        "delete" => Some("delete takes the id of a unit"),
        "replace" => Some("replace takes the id of a unit, and pairs of hexadecimal digits"),
        "group" => Some("group stands alone in its line and in no group, and an end follows"),
        "end" => Some("end stands alone in its line, behind the edits of a group"),
        _ => None,
    }
}

/// How those are that every run has, in no group.
fn common_form(name: &str) -> Option<&'static str>
    ensures { option_map (λ form. form.now) result ≡ common_form name.now }
{
    match name {
        "load" => Some("load takes the path of a file, and is no edit"),
        "settle" => Some("settle takes the id of a unit or nothing, and is no edit"),
        "show" => Some("show takes the id of a unit, and is no edit"),
        "drop" => Some("drop takes the id of a unit, and is no edit"),
        "clear" => Some("clear takes nothing, and is no edit"),
        _ => None,
    }
}

/// How those are that a run has without workers, in no group.
fn alone_form(name: &str) -> Option<&'static str>
    ensures { option_map (λ form. form.now) result ≡ alone_form name.now }
{
    match name {
        "unit" => Some("unit takes the id of a unit, and is for run without workers"),
        "json" => Some("json takes the id of a unit, and is for run without workers"),
        "take" => Some("take takes the id of a unit or nothing, and is for run without workers"),
        "land" => Some("land takes the number of a job, and is for run without workers"),
        "give" => Some("give takes the number of a job, and is for run without workers"),
        "mark" => Some("mark takes nothing, and is for run without workers"),
        "altered" => Some("altered takes the id of a unit, and is for run without workers"),
        _ => None,
    }
}

/// How those are that it has beside workers, in no group.
fn beside_form(name: &str) -> Option<&'static str>
    ensures { option_map (λ form. form.now) result ≡ beside_form name.now }
{
    match name {
        "want" => Some("want takes ids of units, and is for runs beside workers"),
        "rest" => Some("rest takes on or off, and is for runs beside workers"),
        _ => None,
    }
}
