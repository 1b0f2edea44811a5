//! Whether bytes are an image's, and whether its code is verified.
ghost use Rattle.ob_code.specs.Images.{image};

use crate::page::Page;
use crate::question::Question;
use ob_code::{CodeError, Image, decode, encode};
use ob_verify::{Verified, VerifyError, fault_of, name_of, verify};
use std::alloc::Global;

fn put_fault(error: VerifyError, page: &mut Page) {
    match error {
        VerifyError::Fault {
            number,
            body,
            instruction,
        } => {
            page.word("fault");
            page.show(&number);
            page.word(match fault_of(number) {
                Some(fault) => name_of(fault),
                None => "unknown",
            });
            page.show(&body);
            page.show(&instruction);
        }
        VerifyError::Memory => page.fail(),
    }
}

// The code of an image. Where it isn't verified, it is said why.
fn verified_image(alloc: Global, image: Image, page: &mut Page) -> Option<Verified> {
    match verify(alloc, image) {
        Ok(code) => Some(code),
        Err(error) => {
            put_fault(error, page);
            None
        }
    }
}

fn put_bad(error: CodeError, page: &mut Page) {
    match error {
        CodeError::BadImage(offset) => {
            page.word("bad");
            page.show(&offset);
        }
        CodeError::Memory => page.fail(),
    }
}

/// The code of the image whose bytes the next word tells. Where it isn't verified, it is said why.
pub fn code_of(alloc: Global, asked: &mut Question<'_>, page: &mut Page) -> Option<Verified> {
    let bytes = asked.bytes(alloc, page);
    match decode(alloc, &bytes) {
        Ok(image) => verified_image(alloc, image, page),
        Err(error) => {
            put_bad(error, page);
            None
        }
    }
}

fn put_image(alloc: Global, code: Image, page: &mut Page)
    requires { image.fits code }
{
    if let Some(bytes) = page.made(encode(alloc, &code)) {
        page.bytes(&bytes);
    }
    if verified_image(alloc, code, page).is_some() {
        page.word("verified");
    }
}

/// The bytes that an image is spelled by which was read from bytes, and what the verifier says of it.
pub fn image(alloc: Global, asked: &mut Question<'_>, page: &mut Page) {
    let bytes = asked.bytes(alloc, page);
    match decode(alloc, &bytes) {
        Ok(image) => put_image(alloc, image, page),
        Err(error) => put_bad(error, page),
    }
}
