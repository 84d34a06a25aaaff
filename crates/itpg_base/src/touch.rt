//! What an edit touches.
use crate::label_set::LabelSet;
use crate::name::Name;

/// What an edit changes, as far as answers can depend on it. The labels are those of the edited object.
#[derive(Clone, Copy)]
pub enum Touch {
    /// Everything: the graph was begun, or its horizon grew.
    All,
    /// Which objects stand: one with these labels was declared or dropped.
    Shape(LabelSet),
    /// When an object with these labels exists: it lives at more moments.
    Live(LabelSet),
    /// When an object with these labels exists, and its values: it lives at fewer moments.
    Gone(LabelSet),
    /// The values of a property of an object with these labels.
    Value {
        /// The labels of the object.
        labels: LabelSet,
        /// The property.
        prop: Name,
    },
}
