//! Types of the standard annotations.
use crate::token::AnnotationWord;
use wat_words::StdAnnotation;

/// The annotation `@custom`.
pub type custom = AnnotationWord<StdAnnotation<0>>;
/// The annotation `@name`.
pub type name = AnnotationWord<StdAnnotation<1>>;
/// The annotation `@producers`.
pub type producers = AnnotationWord<StdAnnotation<2>>;
/// The annotation `@dylink.0`.
pub type dylink_0 = AnnotationWord<StdAnnotation<3>>;
/// The annotation `@metadata.code.branch_hint`.
pub type metadata_code_branch_hint = AnnotationWord<StdAnnotation<4>>;
