//! list-key-templates.

ghost use Rattle.std.specs.Prelude.{◌≡◌, ◌++◌, OnOk, OnErr, codes};
ghost use Rattle.key_msgs.specs.Templates.{seen};
ghost use Rattle.tink_spec.specs.Outside.{Took, TookPrefix, Stood, Rose};
ghost use Rattle.tinkey_plans.specs.Ends.{World};
ghost use Rattle.tinkey_plans.specs.Commands.{is_primitive, makes_for, template_names};
ghost use Rattle.tinkey_plans.specs.Plan.{writes};
ghost use Rattle.tinkey_plans.specs.Steps.{Finishes};
ghost use Rattle.tinkey_actions.specs.Lines.{line_for};

use key_msgs::{Primitive, TEMPLATE_COUNT, Template, template_at};
use tink_base::{Failed, Sink, write_all};
use tinkey_plans::Status;

/// list-key-templates: the names of the templates, one a line, or of those whose keys have this
/// primitive. No memory is taken.
#[inline(never)]
pub fn list_templates<K: Sink>(primitive: Option<Primitive>, sink: &mut K) -> Result<(), Status>
    ensures { (w : World) → Finishes (writes (template_names primitive))
        (record w { sink = K.state sink.old }) result (record w { sink = K.state sink.new }) }
{
    match write_names(primitive, sink) {
        Ok(()) => Ok(()),
        Err(_) => Err(Status::WriteFault),
    }
}

/// Writes the names of these templates, one a line.
fn write_names<K: Sink>(primitive: Option<Primitive>, sink: &mut K) -> Result<(), Failed>
    ensures all { OnOk result (Took (K.state sink.old) (K.state sink.new) (template_names primitive)) }
    ensures no_fault { OnOk result (Stood (K.state sink.old).faults (K.state sink.new).faults) }
    ensures failed { OnErr result (Rose (K.state sink.old).faults (K.state sink.new).faults) }
    ensures prefix { OnErr result
        (TookPrefix (K.state sink.old) (K.state sink.new) (template_names primitive)) }
{
    for row in 0..TEMPLATE_COUNT {
        if let Some(template) = template_at(row) {
            if let Err(failed) = write_line(primitive, template, sink) {
                return Err(failed);
            }
        }
    }
    Ok(())
}

/// Writes the name of the template and a newline, if its keys have this primitive.
fn write_line<K: Sink>(
    primitive: Option<Primitive>,
    template: Template,
    sink: &mut K,
) -> Result<(), Failed>
    ensures all { OnOk result
        (Took (K.state sink.old) (K.state sink.new) (line_for primitive (seen template))) }
    ensures no_fault { OnOk result (Stood (K.state sink.old).faults (K.state sink.new).faults) }
    ensures failed { OnErr result (Rose (K.state sink.old).faults (K.state sink.new).faults) }
    ensures prefix { OnErr result
        (TookPrefix (K.state sink.old) (K.state sink.new) (line_for primitive (seen template))) }
{
    if makes_for(primitive, template) {
        write_name(sink, template.name())
    } else {
        Ok(())
    }
}

/// Whether the template's keys have this primitive; where none is given, they do.
fn makes_for(primitive: Option<Primitive>, template: Template) -> bool
    ensures { result ≡ makes_for primitive (seen template) }
{
    match primitive {
        Some(primitive) => is_primitive(template.primitive(), primitive),
        None => true,
    }
}

/// Whether the two are one primitive.
fn is_primitive(one: Primitive, other: Primitive) -> bool
    ensures { result ≡ is_primitive one other }
{
    match one {
        Primitive::Aead => matches!(other, Primitive::Aead),
        Primitive::Daead => matches!(other, Primitive::Daead),
        Primitive::Mac => matches!(other, Primitive::Mac),
        Primitive::Prf => matches!(other, Primitive::Prf),
        Primitive::Stream => matches!(other, Primitive::Stream),
    }
}

/// Writes a name and a newline.
fn write_name<K: Sink>(sink: &mut K, name: &str) -> Result<(), Failed>
    ensures all { OnOk result
        (Took (K.state sink.old) (K.state sink.new) (name.now ++ codes "\n")) }
    ensures no_fault { OnOk result (Stood (K.state sink.old).faults (K.state sink.new).faults) }
    ensures failed { OnErr result (Rose (K.state sink.old).faults (K.state sink.new).faults) }
    ensures prefix { OnErr result
        (TookPrefix (K.state sink.old) (K.state sink.new) (name.now ++ codes "\n")) }
{
    match write_all(sink, name.as_bytes()) {
        Ok(()) => write_all(sink, "\n".as_bytes()),
        Err(failed) => Err(failed),
    }
}
