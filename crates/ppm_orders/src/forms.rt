//! The form in which a run is told, as the words of `trace` say it.
ghost use Rattle.std.specs.Prelude.{◌≡◌};
ghost use Rattle.ppm_orders.specs.TraceForms.{form_by as form_in, only_of as only_in};

use ppm_cli::{TracedForm, TracedLines};
use ppm_lines::{Form, Only};

/// The form in which a run is told, as the options say it.
pub fn form_by(form: TracedForm, lines: TracedLines) -> Form
    ensures { result ≡ form_in form lines }
{
    match form {
        TracedForm::Text => Form::Lines(only_of(lines)),
        TracedForm::Json => Form::Events,
        TracedForm::Svg => Form::Picture,
    }
}

/// Which lines are written, as the options say it.
fn only_of(lines: TracedLines) -> Only
    ensures { result ≡ only_in lines }
{
    match lines {
        TracedLines::Turns => Only::Turns,
        TracedLines::Rows => Only::Rows,
        TracedLines::Marks => Only::Marks,
    }
}
