//! The text of the default sheet.

ghost use Rattle.std.specs.Prelude.{◌≡◌};
ghost use Rattle.sheets.specs.DefaultText as spec;

/// The sheet that stands below those of every document: the rules of HTML for the elements' display, margins, sizes and
/// weights (HTML, 15.3), and the contents of note calls and markers (css-gcpm-3, 2.4).
#[tactic(auto, unfolding(crate::specs::DefaultText::default_text))]
pub fn default_text() -> &'static str
    ensures { result.now ≡ spec.default_text }
{
    "address,article,aside,blockquote,body,caption,center,dd,details,dialog,dir,div,\n\
dl,dt,fieldset,figcaption,figure,footer,form,h1,h2,h3,h4,h5,h6,header,hgroup,hr,\n\
html,legend,main,menu,nav,ol,p,pre,search,section,summary,table,tbody,td,tfoot,\n\
th,thead,tr,ul{display:block}\n\
area,base,datalist,head,link,meta,noscript,param,script,style,template,title{display:none}\n\
li{display:list-item;counter-increment:list-item}\n\
ol,ul,menu{counter-reset:list-item;padding-left:40px}\n\
ol{list-style-type:decimal}\n\
p,dl,ol,ul,menu,pre{margin-top:1em;margin-bottom:1em}\n\
blockquote,figure{margin:1em 40px}\n\
dd{margin-left:40px}\n\
h1{font-size:2em;margin:0.67em 0}\n\
h2{font-size:1.5em;margin:0.83em 0}\n\
h3{font-size:1.17em;margin:1em 0}\n\
h4{margin:1.33em 0}\n\
h5{font-size:0.83em;margin:1.67em 0}\n\
h6{font-size:0.67em;margin:2.33em 0}\n\
h1,h2,h3,h4,h5,h6{font-weight:bold;break-after:avoid}\n\
b,strong,th{font-weight:bold}\n\
i,em,cite,dfn,var{font-style:italic}\n\
code,kbd,samp,pre,tt{font-family:monospace}\n\
pre{white-space:pre}\n\
hr{border-top:1px solid;margin:0.5em 0}\n\
::footnote-call{content:counter(footnote)}\n\
::footnote-marker{content:counter(footnote) \". \"}\n"
}
