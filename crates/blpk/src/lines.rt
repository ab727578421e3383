// The lines of refused images, scripts and configurations.

ghost use Rattle.std.specs.Prelude.{◌≡◌};
ghost use Rattle.blpk.specs.Lines.{build_line, image_line, script_line};

use arrayvec::ArrayVec;
use bk_conf::BuildFault;
use bk_image::ImageFault;
use bk_report::{put, put_decimal};
use bk_script::ScriptFault;

/// The line of a refused image: the place of its first fault, and the field.
#[tactic(auto, using(crate::proofs::Texts::field_short))]
pub fn image_line(fault: ImageFault) -> ArrayVec<u8, 96>
    ensures { result.items ≡ image_line fault }
{
    let mut line = ArrayVec::new();
    put(&mut line, b"image refused at ");
    put_decimal(&mut line, fault.at);
    put(&mut line, b": ");
    put(&mut line, fault.field.text().as_bytes());
    put(&mut line, b"\n");
    line
}

/// The line of a refused script: the line of its first fault, and the kind.
#[tactic(auto, using(crate::proofs::Texts::kind_short))]
pub fn script_line(fault: ScriptFault) -> ArrayVec<u8, 96>
    ensures { result.items ≡ script_line fault }
{
    let mut line = ArrayVec::new();
    put(&mut line, b"script refused at line ");
    put_decimal(&mut line, fault.line);
    put(&mut line, b": ");
    put(&mut line, fault.kind.text().as_bytes());
    put(&mut line, b"\n");
    line
}

/// The line of a refused configuration: the line of its first fault, and the kind.
#[tactic(auto, using(crate::proofs::Texts::build_short))]
pub fn build_line(fault: BuildFault) -> ArrayVec<u8, 96>
    ensures { result.items ≡ build_line fault }
{
    let mut line = ArrayVec::new();
    put(&mut line, b"build refused at line ");
    put_decimal(&mut line, fault.line);
    put(&mut line, b": ");
    put(&mut line, fault.kind.text().as_slice());
    put(&mut line, b"\n");
    line
}
