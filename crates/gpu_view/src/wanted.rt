//! What the program's words ask for.

/// The form of the output.
#[derive(Clone, Copy, Debug, PartialEq, Eq)]
pub enum Form {
    /// The report of a script, as JSON.
    Report,

    /// The picture of a script, as an SVG.
    Picture,

    /// The picture of a report of a living program, as an SVG.
    Dump,
}

/// The form of the output, and for a script the last line that counts, if not all do.
#[derive(Clone, Copy, Debug, PartialEq, Eq)]
pub struct Wanted {
    /// The form of the output.
    pub form: Form,

    /// How many lines count: the commands on later ones are not run.
    pub after: Option<u64>,
}

impl Wanted {
    /// What these words ask for: `report` or `picture`, and after it nothing, or `--after` and a number; or `dump`.
    pub(crate) fn of(words: &[String]) -> Option<Wanted> {
        let (form, after) = match words {
            [form] => (form, None),
            [form, option, line] if option.as_str() == "--after" => {
                (form, Some(line.as_str().parse::<u64>().ok()?))
            }
            _ => return None,
        };
        let form = match form.as_str() {
            "report" => Form::Report,
            "picture" => Form::Picture,
            "dump" if after.is_none() => Form::Dump,
            _ => return None,
        };
        Some(Wanted { form, after })
    }
}
