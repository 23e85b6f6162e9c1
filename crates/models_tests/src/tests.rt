//! What is live at checks of scripts, and what models give. All of it was worked out by hand.

mod functions;
mod live;
